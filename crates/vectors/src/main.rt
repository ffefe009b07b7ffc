// Runs vectors from outside and prints what comes out, a line for each. A vector is a line of standard input: a word that says what is
// asked, a blank, and the text. The vectors stand in `stdin`, what they must give in `stdout`.
// The program only takes lines apart and prints; all that is asked is answered by the proved libraries.
#![tactic(auto)]

mod ask;
mod messages;
mod sheets;
mod slips;

use input::{buffer, read_text};
use std::io;
use text::{cut, lines};

// How many bytes of vectors are read.
const VECTORS_MOST: usize = 524288;

// The answer to what a word asks of a text. Other words ask nothing.
fn answer(rt: &impl Print, word: &[u8], text: &[u8]) -> io::Result<()> {
    match word {
        b"iban" => ask::iban(rt, text),
        b"code" => ask::put_value(rt, shape::field::code_of(text)),
        b"date" => ask::date(rt, text),
        b"time" => ask::put_value(rt, shape::date::time_of(text)),
        b"amount" => ask::put_value(rt, shape::field::amount_of(text)),
        b"currency" => ask::put_value(rt, shape::field::currency_of(text)),
        b"uetr" => ask::uetr(rt, text),
        b"identifier" => ask::put_stored(rt, shape::stored::identifier_of(text)),
        b"account" => ask::put_account(rt, shape::field::account_of(text)),
        b"message" => ask::put_value(rt, shape::field::message_code_of(text)),
        b"system" => ask::put_system(rt, shape::field::system_of(text)),
        b"original" => ask::put_test(rt, shape::field::names_pacs_008(text)),
        b"check" => ask::codes(rt, text),
        b"order" => ask::order_named(rt, text),
        b"write" => slips::write(rt, text),
        b"read" => slips::read(rt, text),
        b"sheet" => sheets::read(rt, text),
        b"list" => sheets::list(rt, text),
        b"receive" => messages::receive(rt, text),
        _ => Ok(()),
    }
}

fn main(rt: HostRuntime) -> io::Result<()> {
    let mut buffer = buffer::<VECTORS_MOST>();
    for line in lines(read_text(&mut rt.stdin(), &mut buffer)?) {
        let (word, text) = cut(line, b' ');
        rt.write_all(line)?;
        answer(&rt, word, text)?;
        println!(rt; "")?;
    }
    Ok(())
}
