//! Laws of answers. Each function has an empty body: its contract is the law.

ghost use Rattle.std.specs.Prelude.{◌≡◌, ◌≢◌, ℕ, true, false, Option, Some};
ghost use Rattle.evac_model.specs.declared.device.Request.{Request};
ghost use Rattle.evac_model.specs.declared.device.Request.TheVariants.{Plug};
ghost use Rattle.evac_model.specs.declared.device.Response.{Response};
ghost use Rattle.evac_model.specs.declared.device.Response.TheVariants.{Busy};
ghost use Rattle.evac_model.specs.Geometry.{Sizes};
ghost use Rattle.evac_model.specs.DeviceAnswer.{DeviceState};
ghost use Rattle.evac_model.specs.Counts.{Calls};
ghost use Rattle.mem_device.specs.Answering.{IsAnswer, IsBusyCause};

/// With a backing that counts no fault, as `SureSlate`, a device is busy only in a migration.
pub fn sure_backing_is_never_busy()
    ensures { (s : Sizes) (d : DeviceState) (request : Option Request) (told : Option Calls) (response : Response) → d.migrating ≡ false → IsAnswer s d request 0 0 told response → response ≢ Busy }
{}

/// A device is busy only in a migration, or where the backing was asked and its count of faults rose.
/// A PLUG asks no backing: so it is busy only in a migration.
pub fn busy_has_a_cause()
    ensures any { (s : Sizes) (d : DeviceState) (request : Option Request) (before after : ℕ) (told : Option Calls) (response : Response) → IsAnswer s d request before after told response → response ≡ Busy → IsBusyCause s d request before after }
    ensures plug { (s : Sizes) (d : DeviceState) (addr count before after : ℕ) (told : Option Calls) (response : Response) → IsAnswer s d (Some (Plug addr count)) before after told response → response ≡ Busy → d.migrating ≡ true }
{}
