// An answer to a command that runs units.
ghost use Rattle.judge.specs.Running.{HasUnits};

/// What an answer to a command that runs units may still be.
#[derive(Clone, Copy)]
pub struct Running {
    /// How many units a slice may have; `finish` and `collect` have as many as they want.
    pub most: Option<u64>,
    /// Whether the last line is that of `collect`.
    pub collects: bool,
    /// The reports so far, without `told` and `done`.
    pub reports: u64,
    ghost fits: { HasUnits most reports },
}
