// The file (document 01, section 8): its words and sections, and what reducing it gives.
#![tactic(auto)]

pub mod laws;
pub mod layout;
pub mod reduce;

ghost use Rattle.std.specs.Prelude.{◌≡◌};
ghost use Rattle.file.specs.File.{settings_of};

use mir::config::Settings;

// The settings, from numbers, as C lends them one by one; a flag is set if its word isn't 0.
pub fn settings_of(count_regs: u32, args: u32, complex: u32, arm: u32, compress: u32) -> Settings
    ensures { result ≡ settings_of count_regs args complex arm compress }
{
    Settings {
        count_regs,
        args,
        complex: complex != 0,
        arm: arm != 0,
        compress: compress != 0,
    }
}
