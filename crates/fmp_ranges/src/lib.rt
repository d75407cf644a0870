//! How far a run or a search may go, in numbers that are within their ranges by their types.
#![tactic(auto)]

ghost use Rattle.std.specs.Prelude.{◌≤◌, option_map};
ghost use Rattle.std.specs.Option.{SomeIff};

/// How many events a run has at most, or how many lines an order: from 1 to as many as a trace may have.
#[derive(Clone, Copy)]
pub struct Turns {
    pub count: u32,
    pub ghost some: { 1 ≤ count },
    pub ghost few: { count ≤ 1000000 },
}

impl Turns {
    /// So many, if that is within the range.
    pub const fn new(count: u32) -> Option<Turns>
        ensures { SomeIff (option_map (λ t. t.count) result) ((1 ≤ count) × (count ≤ 1000000)) count }
    {
        if 1 <= count && count <= 1_000_000 {
            Some(Turns { count })
        } else {
            None
        }
    }
}

/// How many ticks each processor takes, or takes at most: no more than a trace may have lines.
#[derive(Clone, Copy)]
pub struct Ticks {
    pub count: u32,
    pub ghost few: { count ≤ 1000000 },
}

impl Ticks {
    /// So many, if that is within the range.
    pub const fn new(count: u32) -> Option<Ticks>
        ensures { SomeIff (option_map (λ t. t.count) result) (count ≤ 1000000) count }
    {
        if count <= 1_000_000 {
            Some(Ticks { count })
        } else {
            None
        }
    }
}

/// For how many places a search has room: from 1, where all runs begin, to 100000000.
#[derive(Clone, Copy)]
pub struct Places {
    pub count: u32,
    pub ghost some: { 1 ≤ count },
    pub ghost few: { count ≤ 100000000 },
}

impl Places {
    /// So many, if that is within the range.
    pub const fn new(count: u32) -> Option<Places>
        ensures { SomeIff (option_map (λ p. p.count) result) ((1 ≤ count) × (count ≤ 100000000)) count }
    {
        if 1 <= count && count <= 100_000_000 {
            Some(Places { count })
        } else {
            None
        }
    }
}

/// How far a run of processors goes.
#[derive(Clone, Copy)]
pub struct Limits {
    pub ticks: Ticks,
    pub turns: Turns,
}

/// How far a search through orders goes.
#[derive(Clone, Copy)]
pub struct Bounds {
    pub turns: Turns,
    pub places: Places,
}
