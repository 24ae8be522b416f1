//! Laws of scopes: references go on with what their names belong to, and a tree has one answer.
ghost use Rattle.lucid_scope.specs.Laws.{NamesGoWhereTheyBelong, CallsGoWhereTheyBelong, LeastFaultIsUnique, NoFaultIsLeast, InputsAreUnique, FreeNamesAreInputs};

/// In an environment that matches what is in scope, each name and each call goes on where its meaning says: a plain name with its
/// right side, a parameter with its actual, a current name with its right side at the frozen time, a free name with an element of
/// the input, a call with the function's right side.
pub fn names_go_where_they_belong()
    ensures names { NamesGoWhereTheyBelong }
    ensures calls { CallsGoWhereTheyBelong }
{}

/// Of a well-made tree one fault alone is at the least place, and there is none where no name is at fault. So its names have no
/// fault or one least fault, and never both.
pub fn least_fault_is_unique()
    ensures unique { LeastFaultIsUnique }
    ensures excluded { NoFaultIsLeast }
{}

/// A well-made tree has one list of inputs: no two of its names stand at one place, so one order alone has their places rise.
pub fn inputs_are_unique()
    ensures { InputsAreUnique }
{}

/// Each free name of a program is the input of its number.
pub fn free_names_are_inputs()
    ensures { FreeNamesAreInputs }
{}
