// What a line that is not understood should have been.
use script::Word;

pub fn expected(word: Word) -> &'static str {
    match word {
        Word::Room => "room, and nothing after it",
        Word::Nobody => "nobody, and nothing after it",
        Word::Owner => "owner CODE instant, or ordinary",
        Word::Direct => "direct CODE HEAD instant, or ordinary",
        Word::Indirect => "indirect CODE HEAD instant, or ordinary",
        Word::Provider => "provider CODE BANK instant, or ordinary",
        Word::Open => "open SEAT SUM SUM .., two sums for each bank, as 500.00",
        Word::Close => "close SEAT OPENING",
        Word::Set =>
            "set SEAT OPENING OWNER ACCOUNT OUT IN LTK LPO: block OUT and IN as yes or no, LTK a sum, LPO a sum or none",
        Word::Submit =>
            "submit SEAT OPENING SENDER DATE SHEET, the date as 2024-03-01, the sheet on the same line",
        Word::Back => "back SEAT OPENING",
        Word::Read => "read SEAT OPENING OWNER ACCOUNT",
        Word::Slip => "slip DIGITS, two hexadecimal digits for each byte",
        Word::Blank | Word::Unknown =>
            "room, nobody, owner, direct, indirect, provider, open, close, set, submit, back, read, slip or # in front",
    }
}
