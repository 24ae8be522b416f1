//! The terminals of a source's tokens.
ghost use Rattle.std.specs.Prelude.{◌≡◌, ◌∷◌, ◌++◌, [], IfOk, IfErr, IsTrue};
ghost use Rattle.lucid_value.specs.Plain.{PlainValue};
ghost use Rattle.lucid_value.specs.Names.{is_name};
ghost use Rattle.lucid_value.specs.Reading.{Reads};
ghost use Rattle.lucid_value.specs.View.{plain};
ghost use Rattle.lucid_scan.specs.Texts.{IsBetween, is_word_value};
ghost use Rattle.lucid_scan.specs.Tokens.{Tokens};
ghost use Rattle.lucid_parse.specs.Views.{plain_terminal, terminals_of};
ghost use Rattle.lucid_parse.specs.Spelled.{IsReading, IsTokenOf};
ghost use Rattle.lucid_parse.specs.Terminals.{StandsFor, Terminals};

use crate::refusal::ParseRefusal;
use crate::spelling::{fixed_terminal, with_value};
use crate::terminal::{Terminal, TerminalAt};
use lucid_scan::laws::tokens_stand;
use lucid_scan::{Token, TokenKind};
use lucid_value::{MakeRefusal, Name, ReadRefusal, Value, Word, one_line_reading, read_value};
use std::alloc::Global;

fn make_name(alloc: Global, bytes: &[u8]) -> Result<Name, ParseRefusal>
    requires { IsTrue (is_name bytes.now) }
    ensures name { IfOk result (λ name. name ≡ bytes.now) }
    ensures memory { IfErr result (λ refusal. refusal ≡ ParseRefusal.NoMemory) }
{
    match Name::make(alloc, bytes) {
        Ok(name) => Ok(name),
        Err(MakeRefusal::NotThat) => unreachable!(),
        Err(MakeRefusal::NoMemory) => Err(ParseRefusal::NoMemory),
    }
}

// The word between two `"`.
fn make_word(alloc: Global, quoted: &[u8]) -> Result<Word, ParseRefusal>
    requires { IsBetween 34 34 is_word_value quoted.now }
    ensures word { IfOk result (λ word. quoted.now ≡ 34 ∷ (word ++ 34 ∷ [])) }
    ensures memory { IfErr result (λ refusal. refusal ≡ ParseRefusal.NoMemory) }
{
    match Word::make(alloc, &quoted[1..quoted.len() - 1]) {
        Ok(word) => Ok(word),
        Err(MakeRefusal::NotThat) => unreachable!(),
        Err(MakeRefusal::NoMemory) => Err(ParseRefusal::NoMemory),
    }
}

// The value that the bytes read as.
fn make_value(alloc: Global, bytes: &[u8]) -> Result<Value, ParseRefusal>
    requires { (read : PlainValue) × Reads bytes.now read }
    ensures value { IfOk result (λ value. IsReading bytes.now (plain value)) }
    ensures memory { IfErr result (λ refusal. refusal ≡ ParseRefusal.NoMemory) }
{
    // For the proof: no line is read as two values.
    one_line_reading();
    match read_value(alloc, bytes) {
        Ok(value) => Ok(value),
        Err(ReadRefusal::NotValue) => unreachable!(),
        Err(ReadRefusal::NoMemory) => Err(ParseRefusal::NoMemory),
    }
}

/// The terminal that a token of this kind and these bytes stands for.
fn read_terminal(
    alloc: Global,
    kind: TokenKind,
    bytes: &[u8],
) -> Result<Terminal<Name, Value>, ParseRefusal>
    requires { IsTokenOf kind bytes.now }
    ensures terminal { IfOk result (λ terminal. StandsFor kind bytes.now (plain_terminal terminal)) }
    ensures memory { IfErr result (λ refusal. refusal ≡ ParseRefusal.NoMemory) }
{
    match kind {
        TokenKind::Name => Ok(Terminal::Name(make_name(alloc, bytes)?)),
        TokenKind::Int => Ok(Terminal::Const(make_value(alloc, bytes)?)),
        TokenKind::Quoted => Ok(Terminal::Const(Value::Word(make_word(alloc, bytes)?))),
        TokenKind::Text => Ok(Terminal::Const(make_value(alloc, bytes)?)),
        TokenKind::ListText => Ok(Terminal::Const(make_value(alloc, bytes)?)),
        TokenKind::Fixed => Ok(with_value(alloc, fixed_terminal(bytes))),
    }
}

/// The terminals of the source's tokens.
pub fn read_terminals(
    alloc: Global,
    source: &[u8],
    tokens: &[Token],
) -> Result<Vec<TerminalAt>, ParseRefusal>
    requires { Tokens source.now 0 tokens.now }
    ensures terminals { IfOk result (λ terminals. Terminals source.now tokens.now (terminals_of terminals.items)) }
    ensures memory { IfErr result (λ refusal. refusal ≡ ParseRefusal.NoMemory) }
{
    // For the proof: each token stands in the source.
    tokens_stand();
    let mut terminals = Vec::new(alloc);
    for token in tokens {
        let bytes = &source[token.from as usize..token.to as usize];
        let terminal = read_terminal(alloc, token.kind, bytes)?;
        terminals.push(TerminalAt {
            terminal,
            at: token.from,
        })?;
    }
    Ok(terminals)
}
