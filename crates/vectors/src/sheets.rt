// What is asked of sheets.
use lister::LISTING_MOST;
use std::io;

pub fn read(rt: &impl Print, text: &[u8]) -> io::Result<()> {
    match sheet::read(text) {
        Ok(sheet) => print!(rt; " accepted {}", sheet.count),
        Err(refused) => print!(rt; " {refused}"),
    }
}

pub fn list(rt: &impl Print, text: &[u8]) -> io::Result<()> {
    let mut out = [0u8; LISTING_MOST];
    let count = lister::listing(text, &mut out);
    println!(rt; "")?;
    rt.write_all(&out[..count])
}
