/// Where a game file, or the parts of a game, break a rule. Entries count from 1.
#[derive(Clone, Copy, Debug, PartialEq, Eq)]
pub enum Place {
    /// The document as a whole, or a top key.
    Document,
    /// The name of a target.
    Target(u32),
    /// The name of a row.
    Row(u32),
    /// A schedule.
    Schedule(u32),
    /// A resource.
    Resource(u32),
    /// A type of attacker.
    Attacker(u32),
}

/// The first rule that a game file, or the parts of a game, break: its number and its place.
#[derive(Clone, Copy, Debug, PartialEq, Eq)]
pub struct GameFault {
    /// 1 not TOML, 2 bad version, 3 missing key, 4 wrong kind, 5 unknown key, 6 empty list, 7 unknown name,
    /// 8 repeated name, 9 out of range, 10 too large, 11 bad scale.
    pub reason: u8,
    /// Where it is broken.
    pub place: Place,
}
