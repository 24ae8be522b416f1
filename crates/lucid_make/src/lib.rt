//! Made programs: the source text of a program of any size, to run the interpreter on.
//!
//! The program with the number n has the names `v0` to `vn`, and its value is `vn`. `v0` counts up from 1, modulo 1000.
//! Each further name is 1 at time 0; at every later time it is the sum of itself and of the name before it, both at the
//! time before, modulo 1000.
#![tactic(auto)]

ghost use Rattle.std.specs.Prelude.{◌≡◌, ◌+◌, ◌<◌, ◌≤◌, ◌++◌, IfOk, OnOk, vec_len};
ghost use Rattle.std.specs.String.{string_bytes};
ghost use Rattle.lucid_make.specs.Source.{made_source, ended_line, definition_of, subject_line, first_definition};

use std::alloc::{AllocError, Global};

/// The source of the made program whose last name has the number `n`, as the bytes of its lines. For `n` = 1 it is
///
/// ```text
/// v1 where
/// v0 = 1 fby (v0 + 1) mod 1000;
/// v1 = v0 fby (v1 + v0) mod 1000;
/// end
/// ```
///
/// The only error is want of memory.
pub fn make_source(alloc: Global, n: u32) -> Result<Vec<u8>, AllocError>
    requires low { 1 ≤ n }
    requires high { n ≤ 10000 }
    ensures text { IfOk result (λ source. source.items ≡ made_source n) }
    ensures length { IfOk result (λ source. vec_len source < 500000) }
{
    let mut source = String::new(alloc);
    write_head(&mut source, n)?;
    for number in 1..n + 1 {
        write_definition(&mut source, number)?;
    }
    source.push_str("end\n")?;
    Ok(source.into_bytes())
}

// Appends the line of the subject and the definition of `v0`.
fn write_head(source: &mut String, last: u32) -> Result<(), AllocError>
    ensures { OnOk result
        (string_bytes source.new
        ≡ string_bytes source.old ++ (ended_line (subject_line last) ++ ended_line first_definition)) }
{
    writeln!(source, "v{last} where")?;
    source.push_str("v0 = 1 fby (v0 + 1) mod 1000;\n")
}

// Appends the definition of the name with this number.
fn write_definition(source: &mut String, number: u32) -> Result<(), AllocError>
    requires { 1 ≤ number }
    ensures { OnOk result
        (string_bytes source.new ≡ string_bytes source.old ++ ended_line (definition_of number)) }
{
    let before = number - 1;
    writeln!(
        source,
        "v{number} = v{before} fby (v{number} + v{before}) mod 1000;"
    )
}
