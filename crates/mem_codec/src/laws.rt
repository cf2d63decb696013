//! Laws of the layouts. Each function has an empty body: its contract is the law.

ghost use Rattle.std.specs.Prelude.{◌≡◌, ℕ, List};
ghost use Rattle.evac_model.specs.declared.device.Request.{Request};
ghost use Rattle.evac_model.specs.declared.device.Response.{Response};
ghost use Rattle.evac_model.specs.declared.device.Config.{Config};
ghost use Rattle.mem_codec.specs.RequestBytes.{AreRequestBytes, RequestFits, request_bytes};
ghost use Rattle.mem_codec.specs.ResponseBytes.{ResponseBytes, HasState, response_bytes};
ghost use Rattle.mem_codec.specs.ConfigBytes.{ConfigBytes, ConfigFits, config_bytes};

/// What is written for a request spells it, so that reading gives it back.
pub fn request_reads_back()
    ensures { (r : Request) → RequestFits r → AreRequestBytes (request_bytes r) r }
{}

/// Bytes spell at most one request.
pub fn one_request()
    ensures { (bytes : List ℕ) (r s : Request) → AreRequestBytes bytes r → AreRequestBytes bytes s → r ≡ s }
{}

/// What is written for a response spells it, so that reading gives it back.
pub fn response_reads_back()
    ensures { (r : Response) → HasState r → ResponseBytes (response_bytes r) r }
{}

/// Bytes spell at most one response.
pub fn one_response()
    ensures { (bytes : List ℕ) (r s : Response) → ResponseBytes bytes r → ResponseBytes bytes s → r ≡ s }
{}

/// What is written for a configuration spells it, so that reading gives it back.
pub fn config_reads_back()
    ensures { (c : Config) → ConfigFits c → ConfigBytes (config_bytes c) c }
{}

/// Bytes spell at most one configuration.
pub fn one_config()
    ensures { (bytes : List ℕ) (c d : Config) → ConfigBytes bytes c → ConfigBytes bytes d → c ≡ d }
{}
