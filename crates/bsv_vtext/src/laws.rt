ghost use Rattle.std.specs.Prelude.{◌≡◌};
ghost use Rattle.bsv_vtext.specs.Modules.{IsModule};
ghost use Rattle.bsv_vtext.specs.Signals.{VModuleData};
ghost use Rattle.bsv_vtext.specs.VText.{vtext};

/// Two modules with one text are equal: a text tells its module.
pub fn one_text()
    ensures { (c d : VModuleData) → IsModule c → IsModule d → vtext c ≡ vtext d → c ≡ d }
{}
