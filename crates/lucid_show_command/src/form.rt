//! The forms in which a demand is shown.
ghost use Rattle.std.specs.Prelude.{◌≡◌};
ghost use Rattle.std.specs.Option.{option_map};
ghost use Rattle.lucid_show_command.specs.Words.{form_named, form_asked};

/// A form: lines of text, a grid of text, or a picture.
#[derive(Clone, Copy)]
pub enum Form {
    Outline,
    Grid,
    Svg,
}

// The form that a word names.
#[tactic(auto, unfolding(crate::specs::Words::form_named))]
fn form_named(word: &str) -> Option<Form>
    ensures { result ≡ form_named word.now }
{
    if word == "outline" {
        return Some(Form::Outline);
    }
    if word == "grid" {
        return Some(Form::Grid);
    }
    if word == "svg" {
        return Some(Form::Svg);
    }
    None
}

/// The form that is asked for: the outline, where none is named.
#[tactic(auto, unfolding(crate::specs::Words::form_asked))]
pub(crate) fn form_asked(word: Option<&str>) -> Option<Form>
    ensures { result ≡ form_asked (option_map (λ text. text.now) word.entry) }
{
    match word {
        None => Some(Form::Outline),
        Some(word) => form_named(word),
    }
}
