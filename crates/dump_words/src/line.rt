// Lines of a dump.
use handler_lang::ProgramRefused;
use lang_core::{Cell, Inputs, Method, Name, Names, Origin, Program, Request, Response, Text};

/// Why a line says nothing. Tests come in this order.
#[derive(Clone, Copy, PartialEq, Eq)]
pub enum LineFault {
    /// The line isn't UTF-8.
    Text,
    /// Its first word is none of a dump, or a part isn't of its form, is over its limit, is missing or is too much.
    Shape,
    /// It is a program that can't be read.
    Program(ProgramRefused),
}

/// What an `entry` line says of an entry.
#[derive(Drop)]
pub struct EntryLine {
    pub id: u64,
    pub origin: Origin,
    pub version: u64,
    pub wanted: bool,
    pub struck: bool,
    pub inputs: Inputs,
    pub request: Request,
}

/// What a `call` line says of a call. Whom the call is for and its chain are those of its entry and service.
#[derive(Drop)]
pub struct CallLine {
    pub number: u64,
    pub dest: Name,
    pub method: Method,
    pub path: Text,
    pub body: Text,
}

/// What a line says.
#[derive(Drop)]
pub enum Line {
    /// `service NAME`: a service begins.
    Service(Name),
    /// `peers A,B` or `peers -`: the services that it may call.
    Peers(Names),
    /// `program TEXT`: the next of its programs.
    Program(Program),
    /// `entry ID ORIGIN V WANTED STRUCK MOMENT W1 .. W8 METHOD PATH WHO CHAIN BODY`: an entry begins.
    Entry(EntryLine),
    /// `under K`: the number of the program that the entry runs under, where that isn't the first.
    Under(u64),
    /// `call NUMBER DEST METHOD PATH BODY`: a call of the entry.
    Call(CallLine),
    /// `answer STATUS BODY`: what that call consumed.
    Answer(Response),
    /// `reply STATUS BODY` or `reply none`: what the entry answered, with which it ends.
    Reply(Option<Response>),
    /// `row TABLE KEY TEXT`: a row after the last entry.
    Row(Cell),
    /// `end`: the service ends.
    End,
}
