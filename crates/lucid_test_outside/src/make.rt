use crate::told::{first_false, none_wrong};
use lucid_make::*;
use std::alloc::{AllocError, Global};
use std::test::Fail;

fn is_the_program_with_two_names(alloc: Global) -> Result<bool, AllocError> {
    let source = make_source(alloc, 1)?;
    let want = b"v1 where
v0 = 1 fby (v0 + 1) mod 1000;
v1 = v0 fby (v1 + v0) mod 1000;
end
";
    Ok(source.as_slice() == want.as_slice())
}

fn is_the_longest_program(alloc: Global) -> Result<bool, AllocError> {
    let source = make_source(alloc, 10_000)?;
    Ok(
        source.starts_with(b"v10000 where\n")
            && source.ends_with(b"v10000 = v9999 fby (v10000 + v9999) mod 1000;\nend\n"),
    )
}

#[test]
fn the_shortest_and_the_longest_program(rt: HostRuntime) -> Result<(), Fail> {
    let alloc = rt.alloc();
    let facts = [
        is_the_program_with_two_names(alloc)?,
        is_the_longest_program(alloc)?,
    ];
    none_wrong(first_false(&facts), "made programs")
}
