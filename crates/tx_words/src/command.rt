//! The commands with their options.

/// What a transaction does where others block its access. What each name answers is defined where policies are kept.
#[derive(Debug, Clone, Copy)]
pub enum PolicyName {
    /// `older`: the older transaction waits, and the younger yields.
    Older,
    /// `yield`: each yields at once.
    Yield,
    /// `polite`: each waits for eight turns, and then yields.
    Polite,
}

/// Which thread takes the next turn.
#[derive(Debug, Drop)]
pub enum PickerName {
    /// `round:K`: each started thread in turn, for K turns, which are 1 to 1,000,000.
    Round(u32),
    /// `clash`: the last thread goes on, or the next one takes over after a turn that was not done or was an access in a
    /// transaction.
    Clash,
    /// `file:NAME`: the entries of the schedule in that file.
    File(String),
}

/// The options of a run, which `run`, `exec` and `races` share.
#[derive(Debug, Drop)]
pub struct RunOptions {
    /// `--steps N`: the most turns that the run takes, 0 to 4,000,000, which is also the default.
    pub steps: u32,
    /// `--input FILE`: the file of the input; without it the input is empty.
    pub input_file: Option<String>,
    /// `--pick P`: the default is `round:1`.
    pub picker: PickerName,
    /// `--policy P`: the default is `older`.
    pub policy: PolicyName,
    /// `--order FILE`: where the order of the run is written.
    pub order_file: Option<String>,
    /// `--record FILE`: where the schedule of the run is written.
    pub record_file: Option<String>,
}

/// The command `run`: compile, link and run sources.
#[derive(Debug, Drop)]
pub struct Run {
    pub options: RunOptions,
    /// `--fold`: constants are folded before code is generated.
    pub fold: bool,
    /// One source file or more.
    pub sources: Vec<String>,
}

/// The command `check`: the sources up to their check for safety.
#[derive(Debug, Drop)]
pub struct Check {
    /// `--dump`: the typed program is written where the sources are accepted.
    pub dump: bool,
    /// One source file or more.
    pub sources: Vec<String>,
}

/// The command `build`: write the object of one source.
#[derive(Debug, Drop)]
pub struct Build {
    /// `--fold`: constants are folded before code is generated.
    pub fold: bool,
    /// `--to OBJ`: where the object is written.
    pub object_file: String,
    pub source: String,
}

/// The command `exec`: link, verify and run objects.
#[derive(Debug, Drop)]
pub struct Exec {
    pub options: RunOptions,
    /// One object file or more.
    pub objects: Vec<String>,
}

/// The command `replay`: interpret a written order on the sources.
#[derive(Debug, Drop)]
pub struct Replay {
    /// `--input FILE`: the file of the input; without it the input is empty.
    pub input_file: Option<String>,
    /// `--cost N`: the most that the replay may cost, 0 to 100,000,000, which is also the default.
    pub cost: u32,
    /// `--order FILE`: the order to replay.
    pub order_file: String,
    /// One source file or more.
    pub sources: Vec<String>,
}

/// The command `asm`: write the object of an assembly text.
#[derive(Debug, Drop)]
pub struct Asm {
    /// `--to OBJ`: where the object is written.
    pub object_file: String,
    /// The file of the assembly text.
    pub text: String,
}

/// The command `races`: all that `run` does, and then the report of races.
#[derive(Debug, Drop)]
pub struct Races {
    pub run: Run,
    /// `--report FILE`: where the report is written.
    pub report_file: String,
}

/// A command.
#[derive(Debug, Drop)]
pub enum Command {
    Run(Run),
    Check(Check),
    /// `selftest N`: run the program that is made from N, 1 to 400.
    Selftest(u32),
    Build(Build),
    Exec(Exec),
    Replay(Replay),
    /// `dis OBJ`: write an object's assembly text.
    Dis(String),
    Asm(Asm),
    Races(Races),
    /// `explain RULE`: write what a refusal of this name means.
    Explain(String),
}
