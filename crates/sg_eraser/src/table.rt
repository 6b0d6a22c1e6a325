//! The rows and columns of the coverage table as values.

/// A row of the coverage table.
#[derive(Clone, Copy)]
pub(crate) enum CoverRow {
    /// Row 0.
    Whole,
    /// A resource makes one choice.
    Spends(u16),
    /// A target is held where it is covered.
    Held(u16),
    /// A target is covered at most always.
    Within(u16),
    /// What a type gains by another action than its own.
    Gains { l: u8, other: u16 },
}

/// A column of the coverage table.
#[derive(Clone, Copy)]
pub(crate) enum CoverColumn {
    /// The whole of the tickets.
    Always,
    /// The tickets on which a resource takes a choice, from 1.
    Chooses { r: u16, j: usize },
    /// The tickets that cover a target.
    Covering(u16),
}
