//! Why a call is refused.
use lucid_value::Name;

/// Why a call is refused, in the order in which the causes are looked for. A place is an offset in bytes.
#[derive(Drop)]
pub enum Refusal {
    /// The words are refused.
    Usage,
    /// The source has more than 1,048,576 bytes, or in the flat form more than 67,108,864.
    TooLong,
    /// No token begins at the place, and neither a number nor an open text does.
    BadByte { at: u32 },
    /// The string or the list that begins at the place has no end, or is no value.
    OpenText { at: u32 },
    /// The integer at the place is too big.
    BigNumber { at: u32 },
    /// The tokens spell no program.
    Syntax { at: u32 },
    /// The tree is more than 400 deep.
    TooNested { at: u32 },
    /// A name is defined twice.
    Twice { at: u32 },
    /// A call of a name that nothing defines.
    NoFunction { at: u32 },
    /// A call of what is no function.
    NotFunction { at: u32 },
    /// A function's name without arguments.
    IsFunction { at: u32 },
    /// A call with another number of arguments than the function has parameters.
    Arity { at: u32, wanted: u32, given: u32 },
    /// A column is asked for that the program's outermost block has no plain definition of.
    NoColumn { name: Name },
    /// No table's text goes on with the line, from 1.
    NoFlatLine { line: u64 },
    /// The row of a scope is wrong in the flat form, by its number.
    FlatScope { at: u32 },
    /// The row of a node is.
    FlatNode { at: u32 },
    /// The row of a name is.
    FlatName { at: u32 },
    /// The row of a call place is.
    FlatPlace { at: u32 },
    /// The root is, or the inputs are.
    FlatRoot,
    /// What isn't judged stands at the place.
    NotJudged { at: u32 },
    /// More plain names are defined than a judged program may have.
    TooManyNames,
    /// A file is given for a name that isn't free.
    NotFree { name: Name },
    /// A file is given for a name for which an earlier word gave one.
    GivenTwice { name: Name },
    /// No file is given for two free names or more.
    NoInput,
    /// The file of a certificate has more than 268,435,456 bytes.
    CertificateTooLong,
    /// No certificate's text goes on with the line, from 1.
    NoJudgment { line: u64 },
}
