//! What is read from: the source, and the places of the inputs.
ghost use Rattle.std.specs.Prelude.{◌≡◌, ◌≤◌, ◌<◌, ◌+◌, ◌∷◌, ◌++◌, [], length, map, take, IfOk, IfErr, IfSome, OnOk, IsErrOf};
ghost use Rattle.std.specs.List.{range_with_len};
ghost use Rattle.lucid_ports.specs.Faults.{Rises, AsksNoneLate, CountsNoFaultUnless};
ghost use Rattle.lucid_words.specs.Plain.{plain_source, file};
ghost use Rattle.lucid_words.specs.Numbers.{MadeIsFromTo};
ghost use Rattle.lucid_top.specs.Sources.{first_place};
ghost use Rattle.lucid_top.specs.Names.{source_names, AsksFront};
ghost use Rattle.lucid_top.specs.Places.{KeepsNames, CountsNoRead, IsSourceFront, ReadsSource, ReadsPlace, IsReadStop, AreKept, AreFresh, HasReached, read_stop};

use lucid_make::make_source;
use lucid_ports::{Places, PortFault, read_at_most};
use lucid_report::Stop;
use lucid_words::Source;
use std::alloc::Global;

// A refusal of the places.
fn read_stop(fault: PortFault) -> Stop
    ensures { result ≡ read_stop fault }
{
    match fault {
        PortFault::Failed => Stop::ReadFault,
        PortFault::NoMemory => Stop::NoMemory,
    }
}

// Reaches the file of that name and reads it, to its end or to so many bytes.
fn read_file<P: Places>(
    alloc: Global,
    places: &mut P,
    name: &str,
    most: usize,
) -> Result<Vec<u8>, PortFault>
    requires { (P.world places.old).reached < 2000000 }
    ensures bytes { IfOk result (λ bytes. IfSome ((P.world places.old).holds name.now) (λ held. bytes.items ≡ take most held)) }
    ensures reached { OnOk result ((P.world places.new).reached ≡ (P.world places.old).reached + 1) }
    ensures few { (P.world places.new).reached ≤ (P.world places.old).reached + 1 }
    ensures asks { AsksFront (name.now ∷ []) (P.world places.old) (P.world places.new) }
    ensures asked { OnOk result ((P.world places.new).asked ≡ (P.world places.old).asked ++ name.now ∷ []) }
    ensures keeps { KeepsNames (P.world places.old) (P.world places.new) }
    ensures others { AreKept (P.world places.old) (P.world places.new) }
    ensures within { ReadsPlace most (P.world places.old).reached (P.world places.new) }
    ensures failed { IsErrOf result PortFault.Failed → Rises (P.world places.old).faults (P.world places.new).faults }
    ensures counts_no_fault { CountsNoFaultUnless (IsErrOf result PortFault.Failed) (P.world places.old).faults (P.world places.new).faults }
    ensures late { AsksNoneLate (P.world places.old) (P.world places.new) }
{
    let place = places.reach(alloc, name)?;
    read_at_most(alloc, places, place, most)
}

/// The first bytes of the source: all, or of a file at most so many.
pub fn read_source<P: Places>(
    alloc: Global,
    source: &Source,
    most: usize,
    places: &mut P,
) -> Result<Vec<u8>, Stop>
    requires made { MadeIsFromTo 1 10000 source.now }
    requires none { (P.world places.old).reached ≡ 0 }
    ensures source { IfOk result (λ bytes. IsSourceFront most (plain_source source.now) (P.world places.old) bytes.items) }
    ensures reached { OnOk result ((P.world places.new).reached ≡ first_place (plain_source source.now)) }
    ensures few { (P.world places.new).reached ≤ first_place (plain_source source.now) }
    ensures asks { AsksFront (source_names (plain_source source.now)) (P.world places.old) (P.world places.new) }
    ensures asked { OnOk result ((P.world places.new).asked ≡ (P.world places.old).asked ++ (source_names (plain_source source.now))) }
    ensures within { ReadsSource most (plain_source source.now) (P.world places.new) }
    ensures keeps { KeepsNames (P.world places.old) (P.world places.new) }
    ensures stopped { IfErr result (IsReadStop (P.world places.old) (P.world places.new)) }
    ensures counts_no_read { CountsNoRead result (P.world places.old) (P.world places.new) }
    ensures late { AsksNoneLate (P.world places.old) (P.world places.new) }
{
    match source {
        Source::File(name) => read_file(alloc, places, name, most).map_err(read_stop),
        Source::Made(n) => Ok(make_source(alloc, *n)?),
    }
}

/// The first bytes of the file of a certificate, at most so many.
pub fn read_certificate_file<P: Places>(
    alloc: Global,
    name: &str,
    most: usize,
    places: &mut P,
) -> Result<Vec<u8>, Stop>
    requires { (P.world places.old).reached < 2000000 }
    ensures bytes { IfOk result (λ bytes. IsSourceFront most (file name.now) (P.world places.old) bytes.items) }
    ensures reading { HasReached most (P.world places.old) (P.world places.new) result }
    ensures asks { AsksFront (name.now ∷ []) (P.world places.old) (P.world places.new) }
    ensures asked { OnOk result ((P.world places.new).asked ≡ (P.world places.old).asked ++ name.now ∷ []) }
    ensures stopped { IfErr result (IsReadStop (P.world places.old) (P.world places.new)) }
{
    read_file(alloc, places, name, most).map_err(read_stop)
}

/// Reaches the place of each file, in order, and gives their numbers.
pub fn reach_files<P: Places>(
    alloc: Global,
    places: &mut P,
    files: &[&str],
) -> Result<Vec<u32>, Stop>
    requires { (P.world places.old).reached + length files.now < 2000000 }
    ensures numbers { IfOk result (λ numbers. numbers.items ≡ range_with_len (P.world places.old).reached (length files.now)) }
    ensures reached { OnOk result ((P.world places.new).reached ≡ (P.world places.old).reached + length files.now) }
    ensures few { (P.world places.new).reached ≤ (P.world places.old).reached + length files.now }
    ensures asks { AsksFront (map (λ file. file.now) files.now) (P.world places.old) (P.world places.new) }
    ensures asked { OnOk result ((P.world places.new).asked ≡ (P.world places.old).asked ++ (map (λ file. file.now) files.now)) }
    ensures fresh { AreFresh (map (λ file. file.now) files.now) (P.world places.old) (P.world places.new) }
    ensures others { AreKept (P.world places.old) (P.world places.new) }
    ensures keeps { KeepsNames (P.world places.old) (P.world places.new) }
    ensures stopped { IfErr result (IsReadStop (P.world places.old) (P.world places.new)) }
    ensures counts_no_read { CountsNoRead result (P.world places.old) (P.world places.new) }
    ensures late { AsksNoneLate (P.world places.old) (P.world places.new) }
{
    let mut numbers = Vec::new(alloc);
    for file in files {
        let place = places.reach(alloc, file).map_err(read_stop)?;
        numbers.push(place)?;
    }
    Ok(numbers)
}
