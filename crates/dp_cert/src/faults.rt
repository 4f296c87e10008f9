use dp_plant::Key;

/// Why gains are not accepted: the first condition of their certificate that fails.
#[derive(Debug, PartialEq, Eq, Drop)]
pub enum CertFault {
    /// A number lies outside its range: the key by which the plant file has it.
    Range {
        name: Key,
    },
    /// The rate is not below one.
    Rate,
    /// The squares don't show the form: the first row that is short, and by how much.
    FormNotShown {
        row: usize,
        short: i128,
    },
    /// They don't show that the vertex of an axis shrinks it.
    VertexNotShown {
        axis: usize,
        vertex: usize,
        row: usize,
        short: i128,
    },
    /// `b` is less than what a place's difference adds.
    InputShort,
    /// `r` is less than what the rounding adds.
    RoundShort,
    /// They don't show that the form bounds the demand of an axis.
    OutputNotShown {
        axis: usize,
        which: usize,
        row: usize,
        short: i128,
    },
    /// They don't show that the form bounds a coordinate.
    SpanNotShown {
        coordinate: usize,
        row: usize,
        short: i128,
    },
    /// A coordinate can grow too far for 64 bits, or its part of the form too far for 128.
    TooWide {
        coordinate: usize,
    },
}
