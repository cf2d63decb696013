//! Laws of the scenario grammar. Each function has an empty body: its contract is the law.

ghost use Rattle.std.specs.Prelude.{◌≡◌, ℕ, List};
ghost use Rattle.evac_model.specs.declared.scenario.Scenario.{Scenario};
ghost use Rattle.evac_model.specs.declared.scenario.ScenarioFault.{ScenarioFault};
ghost use Rattle.evac_model.specs.ScenarioGrammar.{IsScenarioText, IsRefused};

/// Bytes are a text of one scenario at most, are refused for one fault at most, and never both.
pub fn texts_are_judged_once()
    ensures one { (bytes : List ℕ) (s t : Scenario) → IsScenarioText bytes s → IsScenarioText bytes t → s ≡ t }
    ensures apart { (bytes : List ℕ) (s : Scenario) (f : ScenarioFault) → IsScenarioText bytes s → IsRefused bytes f → ⊥ }
    ensures one_fault { (bytes : List ℕ) (f g : ScenarioFault) → IsRefused bytes f → IsRefused bytes g → f ≡ g }
{}
