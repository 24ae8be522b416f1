//! Laws of the rows. They do nothing when they are called.
ghost use Rattle.std.specs.Prelude.{◌≡◌, ◌≤◌, Some};
ghost use Rattle.lucid_tree.specs.Forms.{Form, form_row, part_count, spelled};

/// Each form is found by its word, and so no two have the same; it has one part to three, and a level from 1 to 12.
#[tactic(auto, using(crate::specs::Forms::found, crate::proofs::FormRows::few, crate::proofs::FormRows::levelled))]
pub fn forms_have_rows()
    ensures found { (form : Form) → spelled (form_row form).spelling ≡ Some form }
    ensures parts { (form : Form) → (1 ≤ part_count form) × (part_count form ≤ 3) }
    ensures levels { (form : Form) → (1 ≤ (form_row form).level) × ((form_row form).level ≤ 12) }
{}
