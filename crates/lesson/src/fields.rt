// The kind of a message and the fields of each kind, for a refusal by 8. The paths are those of document 01, "Fields", and of
// request 9 of document 02.
use std::io;
use std::io::Write;
use table::Kind;

// TxSts of a pacs.002, which its GrpSts can rule out.
const TX_STS: usize = 5;

// The fields of each kind, in their order.
const PACS_008: [&str; 14] = [
    "GrpHdr/MsgId",
    "GrpHdr/CreDtTm",
    "GrpHdr/InstgAgt/FinInstnId/ClrSysMmbId/MmbId",
    "GrpHdr/InstdAgt/FinInstnId/ClrSysMmbId/MmbId",
    "CdtTrfTxInf/PmtId/EndToEndId",
    "CdtTrfTxInf/PmtId/UETR",
    "CdtTrfTxInf/IntrBkSttlmAmt",
    "CdtTrfTxInf/PrvsInstgAgt1/FinInstnId/ClrSysMmbId/MmbId",
    "CdtTrfTxInf/DbtrAgt/FinInstnId/ClrSysMmbId/ClrSysId/Prtry",
    "CdtTrfTxInf/DbtrAgt/FinInstnId/ClrSysMmbId/MmbId",
    "CdtTrfTxInf/DbtrAcct/Id/IBAN",
    "CdtTrfTxInf/CdtrAgt/FinInstnId/ClrSysMmbId/ClrSysId/Prtry",
    "CdtTrfTxInf/CdtrAgt/FinInstnId/ClrSysMmbId/MmbId",
    "CdtTrfTxInf/CdtrAcct/Id/IBAN",
];

const CAMT_050: [&str; 6] = [
    "MsgHdr/MsgId",
    "MsgHdr/CreDtTm",
    "LqdyCdtTrf/LqdyTrfId/UETR",
    "LqdyCdtTrf/LqdyTrfId/TrfdAmt",
    "LqdyCdtTrf/LqdyTrfId/DbtrAcct/Id/Othr/Id",
    "LqdyCdtTrf/LqdyTrfId/CdtrAcct/Id/Othr/Id",
];

const PACS_028: [&str; 8] = [
    "GrpHdr/MsgId",
    "GrpHdr/CreDtTm",
    "GrpHdr/InstgAgt/FinInstnId/ClrSysMmbId/MmbId",
    "TxInf/OrgnlGrpInf/OrgnlMsgId",
    "TxInf/OrgnlGrpInf/OrgnlMsgNmId",
    "TxInf/OrgnlGrpInf/OrgnlCreDtTm",
    "TxInf/OrgnlUETR",
    "TxInf/OrgnlEndToEndId",
];

const PACS_002: [&str; 5] = [
    "GrpHdr/MsgId",
    "GrpHdr/CreDtTm",
    "OrgnlGrpInfAndSts/OrgnlMsgId",
    "OrgnlGrpInfAndSts/GrpSts",
    "TxInfAndSts/TxSts",
];

// The path of a field of a kind by its number, from 1 on.
fn path(kind: Kind, number: usize) -> &'static str {
    let Some(place) = number.checked_sub(1) else {
        return "";
    };
    let path = match kind {
        Kind::Pacs008 => PACS_008.get(place),
        Kind::Camt050 => CAMT_050.get(place),
        Kind::Pacs028 => PACS_028.get(place),
        Kind::Pacs002 => PACS_002.get(place),
    };
    path.copied().unwrap_or("")
}

// The kind that a known message's sheet begins with.
pub fn kind_in(sheet: &[u8]) -> Kind {
    if sheet.starts_with(b"<Document><LqdyCdtTrf") {
        return Kind::Camt050;
    }
    if sheet.starts_with(b"<Document><FIToFIPmtStsReq") {
        return Kind::Pacs028;
    }
    if sheet.starts_with(b"<Document><FIToFIPmtStsRpt") {
        return Kind::Pacs002;
    }
    Kind::Pacs008
}

// What can be wrong with a field.
fn fault(kind: Kind, number: usize) -> &'static str {
    if kind == Kind::Pacs002 && number == TX_STS {
        return "given though GrpSts is ACCP, there twice, or not of its shape";
    }
    "missing, there twice, or not of its shape"
}

// The field that a message was refused for by 8.
pub fn put_field<W: Write>(out: &mut W, sheet: &[u8], number: usize) -> io::Result<()> {
    if number == 0 {
        return out.write_all(
            b"refused 8, field 0: the message is unknown; it must be a Document that holds one pacs.008, camt.050, pacs.028 or pacs.002",
        );
    }
    let kind = kind_in(sheet);
    write!(
        out,
        "refused 8, field {number} of {kind} ({}): {}",
        path(kind, number),
        fault(kind, number)
    )
}
