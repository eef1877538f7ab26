// The calls and the refusals in words, for a person at the terminal.
use crate::page::Page;
use script::CallName;

// A line for each call, in the order of their names, so that a name finds it. In a `match` on the name the
// help would need a list of the names beside it.
static CALLS: [&[u8]; 39] = [
    b"start-limits MOTOR FEEDBACK P V T",
    b"start-model NAME MOTOR FEEDBACK",
    b"get-u32 RID TIMEOUT",
    b"get-f32 RID TIMEOUT",
    b"write-u32 RID VALUE",
    b"write-f32 RID BITS",
    b"fresh-state TIMEOUT",
    b"store",
    b"mode MODE TIMEOUT",
    b"clock READING",
    b"sent",
    b"send-timeout",
    b"send-failed",
    b"slept",
    b"frame READING ID DATA DLC EXT",
    b"frame-lent READING ID DATA DLC EXT",
    b"accepts ID DATA DLC EXT",
    b"patch STATUS MOS ROTOR",
    b"session",
    b"mit MOTOR P V T POS VEL KP KD TORQ",
    b"pos-vel MOTOR POS VLIM",
    b"vel MOTOR VEL",
    b"force-pos MOTOR POS VLIM RATIO",
    b"read-reg MOTOR RID",
    b"write-reg MOTOR RID BITS",
    b"store-params MOTOR",
    b"feedback-request MOTOR",
    b"disable MOTOR",
    b"zero MOTOR",
    b"clear MOTOR",
    b"make-feedback MOTOR STATUS POS VEL TORQ MOS ROTOR",
    b"make-reply ID RID BITS",
    b"make-ack ID RID BITS",
    b"decode P V T DATA",
    b"sort DATA",
    b"status-name N",
    b"register N",
    b"match P V T TOL",
    b"suggest P V T COUNT",
];

const LENT: &[u8] = b"\
    lent before a start of a run, an answer or patch makes that call by the function\n\
    to which the session is lent; it answers the same.\n";

const FIELDS: &[u8] = b"\
    MOTOR and FEEDBACK have 16 bits; RID, DLC, STATUS, MOS, ROTOR and N 8;\n\
    TIMEOUT, READING, DATA and COUNT 64; EXT is 0 or 1; a NAME is any word; the\n\
    others have 32, and a float is the number of its bits. Times are in ns.\n\
    But MOTOR of make-feedback has 8 bits, and ID of make-reply and make-ack 16.\n";

const REFUSALS: &[u8] = b"\
    refused 1: a limit that is not from 1/1024 to 65536\n\
    refused 2: a motor id above 0x4FF\n\
    refused 3: a reading that goes back or lies above 2^62\n\
    refused 4: a register that is not known\n\
    refused 5: a register that is only read\n\
    refused 6: a register of the other type\n\
    refused 7: a timeout above 60 s\n\
    refused 8: a start while a run is open\n\
    refused 9: an answer that is not wanted\n\
    refused 10: a mode that is not 1 to 4\n\
    refused 11: a query that is not from -65536 to 65536\n\
    refused 12: a name that no model has\n\
    refused 13: a feedback that would be read as a register's frame\n\
    refused 14: a field that is too wide\n\
    refused 15: a frame that is not this motor's\n";

pub(crate) fn put_help(page: &mut Page) {
    for call in &CALLS {
        page.put(call);
        page.put(b"\n");
    }
    page.put(LENT);
    page.put(FIELDS);
    page.put(REFUSALS);
}

// The call and its arguments.
pub(crate) fn call_text(name: CallName) -> &'static [u8] {
    CALLS[name as usize]
}
