// What a line of a dump says.
ghost use Rattle.std.specs.Prelude.{◌≡◌, IfOk, Some};
ghost use Rattle.std.specs.Option.{option_map};
ghost use Rattle.handler_lang.specs.Reading.{read_of};
ghost use Rattle.dump_words.specs.Lines.{answer_at, is_none, line_at, peers_at, program_at, program_of, programmed, reply_at, response_at, row_at, row_of, service_at, shaped, under_at, words_at};
ghost use Rattle.dump_words.specs.declared.line.Line.{Line};
ghost use Rattle.dump_words.specs.Parts.{at_end, key_part, table_part};

use crate::line::{Line, LineFault};
use crate::parts::{
    alone, body_behind, key_part, names_part, status_part, table_part, text_behind,
};
use crate::requests::{read_call, read_entry};
use handler_lang::{ProgramRefused, read_program};
use lang_core::{Cell, NoMemory, Program, Response, Text};
use request_names::{cut_word, name_part, read_number};
use std::alloc::Global;

fn read_service(alloc: Global, rest: Option<&str>) -> Result<Option<Line>, NoMemory>
    ensures { IfOk result (λ line. line ≡ service_at (option_map (λ x. x.now) rest.entry)) }
{
    let Some(word) = alone(rest) else {
        return Ok(None);
    };
    match name_part(alloc, word)? {
        Some(name) => Ok(Some(Line::Service(name))),
        None => Ok(None),
    }
}

fn read_peers(alloc: Global, rest: Option<&str>) -> Result<Option<Line>, NoMemory>
    ensures { IfOk result (λ line. line ≡ peers_at (option_map (λ x. x.now) rest.entry)) }
{
    let Some(word) = alone(rest) else {
        return Ok(None);
    };
    match names_part(alloc, word)? {
        Some(names) => Ok(Some(Line::Peers(names))),
        None => Ok(None),
    }
}

// `STATUS BODY`
fn read_response(alloc: Global, rest: Option<&str>) -> Result<Option<Response>, NoMemory>
    ensures { IfOk result (λ response. response ≡ response_at (option_map (λ x. x.now) rest.entry)) }
{
    let Some(rest) = rest else {
        return Ok(None);
    };
    let (word, rest) = cut_word(rest);
    let Some(status) = status_part(word) else {
        return Ok(None);
    };
    match body_behind(alloc, rest)? {
        Some(body) => Ok(Some(Response { status, body })),
        None => Ok(None),
    }
}

fn read_answer(alloc: Global, rest: Option<&str>) -> Result<Option<Line>, NoMemory>
    ensures { IfOk result (λ line. line ≡ answer_at (option_map (λ x. x.now) rest.entry)) }
{
    match read_response(alloc, rest)? {
        Some(response) => Ok(Some(Line::Answer(response))),
        None => Ok(None),
    }
}

fn is_none(rest: Option<&str>) -> bool
    ensures { result ≡ is_none (option_map (λ x. x.now) rest.entry) }
{
    match rest {
        None => false,
        Some(rest) => rest == "none",
    }
}

fn read_reply(alloc: Global, rest: Option<&str>) -> Result<Option<Line>, NoMemory>
    ensures { IfOk result (λ line. line ≡ reply_at (option_map (λ x. x.now) rest.entry)) }
{
    if is_none(rest) {
        return Ok(Some(Line::Reply(None)));
    }
    match read_response(alloc, rest)? {
        Some(response) => Ok(Some(Line::Reply(Some(response)))),
        None => Ok(None),
    }
}

fn row_of(table: Option<Text>, key: Option<Text>, text: Option<Text>) -> Option<Line>
    ensures { result ≡ row_of table key text }
{
    match (table, key, text) {
        (Some(table), Some(key), Some(text)) => Some(Line::Row(Cell { table, key, text })),
        _ => None,
    }
}

// A table and a key, each if it is of its form.
fn place_parts(
    alloc: Global,
    table: &str,
    key: &str,
) -> Result<(Option<Text>, Option<Text>), NoMemory>
    ensures { IfOk result (λ parts. parts ≡ (table_part table.now, key_part key.now)) }
{
    let table = table_part(alloc, table)?;
    let key = key_part(alloc, key)?;
    Ok((table, key))
}

#[tactic(auto, unfolding(crate::specs::Lines::row_at))]
fn read_row(alloc: Global, rest: Option<&str>) -> Result<Option<Line>, NoMemory>
    ensures { IfOk result (λ line. line ≡ row_at (option_map (λ x. x.now) rest.entry)) }
{
    let Some(rest) = rest else {
        return Ok(None);
    };
    let (table, rest) = cut_word(rest);
    let Some(rest) = rest else {
        return Ok(None);
    };
    let (key, rest) = cut_word(rest);
    let (table, key) = place_parts(alloc, table, key)?;
    let text = body_behind(alloc, rest)?;
    Ok(row_of(table, key, text))
}

fn shaped(line: Option<Line>) -> Result<Line, LineFault>
    ensures { result ≡ shaped line }
{
    match line {
        Some(line) => Ok(line),
        None => Err(LineFault::Shape),
    }
}

fn programmed(alloc: Global, text: &Text) -> Result<Result<Line, LineFault>, NoMemory>
    ensures { IfOk result (λ line. line ≡ programmed (read_of text.now)) }
{
    match read_program(alloc, text.as_str()) {
        Ok(program) => Ok(Ok(Line::Program(program))),
        Err(ProgramRefused::NoMemory) => Err(NoMemory),
        Err(why) => Ok(Err(LineFault::Program(why))),
    }
}

fn read_program_line(alloc: Global, rest: Option<&str>) -> Result<Result<Line, LineFault>, NoMemory>
    ensures { IfOk result (λ line. line ≡ program_at (option_map (λ x. x.now) rest.entry)) }
{
    match text_behind(alloc, rest)? {
        Some(text) => programmed(alloc, &text),
        None => Ok(Err(LineFault::Shape)),
    }
}

fn read_under(rest: Option<&str>) -> Option<Line>
    ensures { result ≡ under_at (option_map (λ x. x.now) rest.entry) }
{
    let word = alone(rest)?;
    let number = read_number(word)?;
    Some(Line::Under(number))
}

fn read_end(rest: Option<&str>) -> Option<Line>
    ensures { result ≡ at_end (option_map (λ x. x.now) rest.entry) (Some Line.End) }
{
    match rest {
        None => Some(Line::End),
        Some(_) => None,
    }
}

#[tactic(auto, unfolding(crate::specs::Lines::words_at))]
fn read_words(
    alloc: Global,
    word: &str,
    rest: Option<&str>,
) -> Result<Result<Line, LineFault>, NoMemory>
    ensures { IfOk result (λ line. line ≡ words_at word.now (option_map (λ x. x.now) rest.entry)) }
{
    match word {
        "service" => Ok(shaped(read_service(alloc, rest)?)),
        "peers" => Ok(shaped(read_peers(alloc, rest)?)),
        "program" => read_program_line(alloc, rest),
        "entry" => Ok(shaped(read_entry(alloc, rest)?)),
        "under" => Ok(shaped(read_under(rest))),
        "call" => Ok(shaped(read_call(alloc, rest)?)),
        "answer" => Ok(shaped(read_answer(alloc, rest)?)),
        "reply" => Ok(shaped(read_reply(alloc, rest)?)),
        "row" => Ok(shaped(read_row(alloc, rest)?)),
        "end" => Ok(shaped(read_end(rest))),
        _ => Ok(Err(LineFault::Shape)),
    }
}

/// What a line says, without its line feed, or why it says nothing.
pub fn read_line(alloc: Global, line: &[u8]) -> Result<Result<Line, LineFault>, NoMemory>
    ensures { IfOk result (λ read. read ≡ line_at line.now) }
{
    let Ok(text) = str::from_utf8(line) else {
        return Ok(Err(LineFault::Text));
    };
    let (word, rest) = cut_word(text);
    read_words(alloc, word, rest)
}
