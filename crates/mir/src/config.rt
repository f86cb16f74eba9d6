// The settings that come with a list (document 01, section 1; the Rust's `Config`).
ghost use Rattle.std.specs.Prelude.{◌≡◌};
ghost use Rattle.mir.specs.Records.{fixed_mark};

// The most registers that a list may have.
pub const MAX_REGS: usize = 64;

#[derive(Clone, Copy)]
pub struct Settings {
    pub count_regs: u32,
    pub args: u32,
    pub complex: bool,
    // Stands for the Rust's `is_arm64`, and changes no answer.
    pub arm: bool,
    pub compress: bool,
}

impl Settings {
    // The fixed mark: the first Stack index whose cell nobody looks at after the run.
    pub fn fixed(self) -> u64
        ensures { result ≡ fixed_mark self }
    {
        let args = u64::from(self.args);
        if self.complex {
            2 * args + 16
        } else {
            args + 16
        }
    }
}
