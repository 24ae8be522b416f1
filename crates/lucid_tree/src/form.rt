//! Forms, and the row of each.
ghost use Rattle.std.specs.Prelude.{◌≡◌};
ghost use Rattle.std.specs.List.{find};
ghost use Rattle.lucid_tree.specs.Forms.{form_row, over_time, over_space, plain_row, has_word, spelled, part_count};

/// A form over streams. Its value at a point, a time and a space, may depend on its parts at other ones, and it need not look at all
/// of them.
#[derive(Clone, Copy, Debug, PartialEq, Eq, Drop)]
pub enum Form {
    /// `if test then yes else no fi`.
    If,
    /// `left and right`.
    And,
    /// `left or right`.
    Or,
    /// `first part`: the part at time 0.
    First,
    /// `next part`: the part at the next time.
    Next,
    /// `left fby right`: the left part, and from time 1 on the right one at the time before.
    Fby,
    /// `left whenever right`: the left part where the right one is true, without gaps.
    Whenever,
    /// `left asa right`: the left part as soon as the right one is true.
    Asa,
    /// `left upon right`: the left part, which goes on where the right one is true.
    Upon,
    /// `left attime right`: the left part at the time that the right one gives.
    Attime,
    /// `initial part`: the part at space 0.
    Initial,
    /// `succ part`: the part at the next space.
    Succ,
    /// `left sby right`: the left part, and from space 1 on the right one at the space before.
    Sby,
    /// `left atspace right`: the left part at the space that the right one gives.
    Atspace,
}

/// What a form does to the delay of the references in its parts, where it is judged by the test of cycles.
#[derive(Clone, Copy, Debug, PartialEq, Eq, Drop)]
pub enum Delay {
    /// It stays.
    Same,
    /// It becomes 0.
    Zero,
    /// It falls by 1.
    Less,
    /// It stays in the first part, and rises by 1 in the later ones.
    More,
    /// The form isn't judged.
    Unjudged,
}

/// What decides which part gives the value of a form, and where.
#[derive(Clone, Copy, Debug, PartialEq, Eq, Drop)]
pub enum Decider {
    /// The point alone: it looks at nothing before.
    Point,
    /// A truth, which its first part has at the point.
    Test,
    /// A time or a space, which its second part has at the point.
    Target,
    /// Truths, which its second part has at one time after another.
    Search,
}

/// What the row of a form says.
#[derive(Clone, Copy, Debug, PartialEq, Eq, Drop)]
pub struct FormRow {
    /// The bytes of its word: in a source, in the flat form of a table, and where it is spoken of.
    pub spelling: &'static [u8],
    /// How tightly it binds, from 1, the loosest, to 12.
    pub level: u8,
    /// The number of its parts. A form of one part stands before it, a form of two between them.
    pub parts: u8,
    /// What it does to the delay of references.
    pub delay: Delay,
    /// What decides which part gives its value.
    pub decider: Decider,
    /// Whether it looks at other spaces, or at all spaces alike.
    pub over_space: bool,
}

// The row of a form that doesn't look at other spaces.
fn over_time(
    spelling: &'static [u8],
    level: u8,
    parts: u8,
    delay: Delay,
    decider: Decider,
) -> FormRow
    ensures { plain_row result ≡ over_time spelling.now level parts delay decider }
{
    FormRow {
        spelling,
        level,
        parts,
        delay,
        decider,
        over_space: false,
    }
}

// The row of one that does.
fn over_space(spelling: &'static [u8], level: u8, parts: u8, decider: Decider) -> FormRow
    ensures { plain_row result ≡ over_space spelling.now level parts decider }
{
    FormRow {
        spelling,
        level,
        parts,
        delay: Delay::Unjudged,
        decider,
        over_space: true,
    }
}

// The forms, in the order of their declaration.
const FORMS: [Form; 14] = [
    Form::If,
    Form::And,
    Form::Or,
    Form::First,
    Form::Next,
    Form::Fby,
    Form::Whenever,
    Form::Asa,
    Form::Upon,
    Form::Attime,
    Form::Initial,
    Form::Succ,
    Form::Sby,
    Form::Atspace,
];

impl Form {
    /// Its row in the table of the language, which is this language's own.
    pub fn row(self) -> FormRow
        ensures { plain_row result ≡ form_row self }
    {
        match self {
            Form::If => over_time(b"if", 12, 3, Delay::Same, Decider::Test),
            Form::And => over_time(b"and", 4, 2, Delay::Same, Decider::Test),
            Form::Or => over_time(b"or", 3, 2, Delay::Same, Decider::Test),
            Form::First => over_time(b"first", 11, 1, Delay::Zero, Decider::Point),
            Form::Next => over_time(b"next", 11, 1, Delay::Less, Decider::Point),
            Form::Fby => over_time(b"fby", 1, 2, Delay::More, Decider::Point),
            Form::Whenever => over_time(b"whenever", 2, 2, Delay::Unjudged, Decider::Search),
            Form::Asa => over_time(b"asa", 2, 2, Delay::Unjudged, Decider::Search),
            Form::Upon => over_time(b"upon", 2, 2, Delay::Unjudged, Decider::Search),
            Form::Attime => over_time(b"attime", 2, 2, Delay::Unjudged, Decider::Target),
            Form::Initial => over_space(b"initial", 11, 1, Decider::Point),
            Form::Succ => over_space(b"succ", 11, 1, Decider::Point),
            Form::Sby => over_space(b"sby", 1, 2, Decider::Point),
            Form::Atspace => over_space(b"atspace", 2, 2, Decider::Target),
        }
    }

    /// Its word.
    pub fn spelling(self) -> &'static [u8]
        ensures { result.now ≡ (form_row self).spelling }
    {
        self.row().spelling
    }

    /// The number of its parts.
    pub fn parts(self) -> usize
        ensures { result ≡ part_count self }
    {
        self.row().parts as usize
    }

    /// What it does to the delay of references.
    pub fn delay(self) -> Delay
        ensures { result ≡ (form_row self).delay }
    {
        self.row().delay
    }

    /// What decides which part gives its value.
    pub fn decider(self) -> Decider
        ensures { result ≡ (form_row self).decider }
    {
        self.row().decider
    }

    /// Whether it looks at other spaces, or at all spaces alike.
    pub fn over_space(self) -> bool
        ensures { result ≡ (form_row self).over_space }
    {
        self.row().over_space
    }

    /// The form of this word, if there is one.
    pub fn of_word(word: &[u8]) -> Option<Form>
        ensures { result ≡ spelled word.now }
    {
        form_among(word, &FORMS)
    }
}

// Whether this is the form's word.
fn has_word(word: &[u8], form: Form) -> bool
    ensures { result ≡ has_word word.now form }
{
    word == form.spelling()
}

// The first of some forms that has this word.
fn form_among(word: &[u8], forms: &[Form]) -> Option<Form>
    ensures { result ≡ find (has_word word.now) forms.now }
{
    forms.iter().copied().find(|form| has_word(word, *form))
}
