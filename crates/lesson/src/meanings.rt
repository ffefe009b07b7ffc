// What each check means, in a pupil's words. docs/CHECKS.md has the rules in full.
use std::io;
use std::io::Write;
use table::{ABSENT, CHECKS_MOST, Kind, iso_code, sep_code};

// It fails because ..: a line for each, from check 1 on.
const MEANINGS: [&str; CHECKS_MOST as usize] = [
    "the sender is not in the list of banks, or stands there as a provider",
    "the sender is an indirect branch, which sends nothing by itself",
    "the sender takes no part in instant payments",
    "the sender owns no accounts: it is a branch",
    "the MsgId is not made by the rule, or does not begin with the sender's code",
    "the MsgId stands in an earlier step already",
    "the message was created neither on the day of the call nor the day before",
    "InstgAgt is not the sender",
    "OrgnlMsgId is not made by the rule, or does not begin with the sender's code",
    "no pacs.008 has the MsgId that is asked after, or the one that has it still waits",
    "the pacs.008 asked after has another creation time, UETR or EndToEndId",
    "the creditor account is not one of the sender's",
    "the debtor account is not one of the sender's",
    "the two accounts are in different currencies",
    "the accounts do not begin with 1 and 2: money moves between the two accounts of one bank",
    "the amount is in another currency than the accounts",
    "the UETR stands in an earlier transfer already, carried out or not",
    "the creditor account is not in UAH",
    "the debtor account is not in UAH",
    "the debtor account is blocked for outgoing money",
    "the creditor account is blocked for incoming money",
    "the available money (balance less LTK) is below the amount",
    "turnover and amount together are above the LPO",
    "the LPO is 0: nothing may go out",
    "the debtor's agent is not listed where its Prtry says (SEP: banks, ASP: providers)",
    "the creditor's agent is called a provider (ASP) but is not listed as one",
    "InstdAgt is not listed as an owner or direct branch that takes instant payments",
    "the creditor's agent (SEP) is not listed as a bank or branch that takes instant payments",
    "the creditor's agent is a provider that is not instant or is not served by InstdAgt",
    "the debtor's agent (SEP) is neither InstgAgt nor one of its indirect branches",
    "the creditor's agent (SEP) is neither InstdAgt nor one of its indirect branches",
    "the debtor's agent is a provider that PrvsInstgAgt1 does not serve",
    "the debtor's agent is a provider that InstgAgt does not serve",
    "the creditor's IBAN is wrong: its check digits do not fit the rest",
    "no transfer that waits for this sender has the MsgId in OrgnlMsgId",
    "the receiving bank cannot process the transfer: a technical refusal",
    "the receiving bank refuses to credit its client",
];

// What it means that a check fails.
pub fn meaning(check: u64) -> &'static str {
    let Some(place) = check.checked_sub(1) else {
        return "";
    };
    MEANINGS.get(place as usize).copied().unwrap_or("")
}

// A check with its codes. A camt.050 has no ISO code.
pub fn put_check<W: Write>(out: &mut W, kind: Kind, check: u64) -> io::Result<()> {
    let sep = sep_code(check);
    let iso = iso_code(kind, check);
    write!(out, "check {check} (SEP ")?;
    out.write_all(&sep)?;
    if iso != ABSENT {
        out.write_all(b", ISO ")?;
        out.write_all(&iso)?;
    }
    out.write_all(b")")
}
