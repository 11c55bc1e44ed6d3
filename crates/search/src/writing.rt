// The bundle of an arrangement, in a buffer.
ghost use Rattle.std.specs.Prelude.{◌≡◌, [], ◌∷◌, ◌+◌, ◌*◌, ◌≤◌, ◌<◌, length};
ghost use Rattle.numbers.specs.Number.{number_bytes};
ghost use Rattle.least.specs.Least.{most};
ghost use Rattle.search.specs.Codes.{Coded};
ghost use Rattle.search.specs.Laying.{block_room, programme_room, room, Small, Front, other_end, code_of, EndIs, MessageIs, MessagesIs, BlockIs, TasksIs, ProgrammesIs, BundleIs};

use crate::codes;
use adjacency::End;
use admission::view::View;
use bundle::{
    CLAIM_BYTE, CLAIM_SIZE, LONG_SIZE, OPEN_BYTE, RECEIVE_BYTE, RUN_BYTE, SEND_BYTE, SHORT_SIZE,
};
use workspace::total::byte;

// Long enough for the bundle of any arrangement of a small sheet.
pub const ROOM: usize = 1325;

// Two bytes: a command and its operand.
fn put_pair(buf: &mut [u8], at: usize, command: u8, x: usize) -> usize
    requires { (at + 2 ≤ length buf.old) × (x < 256) }
    ensures { Front buf.old at (command ∷ x ∷ []) buf.new result }
{
    buf[at] = command;
    buf[at + 1] = x as u8;
    at + SHORT_SIZE
}

fn other_end(e: End) -> End
    ensures { result ≡ other_end e }
{
    match e {
        End::Source => End::Target,
        End::Target => End::Source,
    }
}

fn code_of(e: End) -> u8
    ensures { result ≡ code_of e }
{
    match e {
        End::Source => SEND_BYTE as u8,
        End::Target => RECEIVE_BYTE as u8,
    }
}

// The task at one end of link l.
pub fn end_of(sheet: &[u8], v: View, e: End, l: usize) -> usize
    requires { l < 65536 }
    ensures { EndIs sheet.now v e l result }
{
    match e {
        End::Source => byte(sheet, v.source_at(l)),
        End::Target => byte(sheet, v.target_at(l)),
    }
}

// The command of the message of link l.
fn put_command(buf: &mut [u8], at: usize, command: u8, l: usize) -> usize
    requires { (at + 3 ≤ length buf.old) × (l < 256) }
    ensures { Front buf.old at (command ∷ number_bytes 2 l) buf.new result }
{
    buf[at] = command;
    numbers::put16(buf, at + 1, l as u16);
    at + LONG_SIZE
}

// The message of link l, if it leads to or from t and its other task is not in the programme of these tasks.
fn put_message(
    sheet: &[u8],
    buf: &mut [u8],
    at: usize,
    v: View,
    e: End,
    part: usize,
    len: usize,
    t: usize,
    l: usize,
) -> usize
    requires { (at + 3 ≤ length buf.old) × (l < 256) }
    ensures { MessageIs sheet.now v buf.old buf.new e at part len t l result }
{
    if end_of(sheet, v, e, l) != t {
        return at;
    }
    let far = end_of(sheet, v, other_end(e), l);
    if codes::stands(part, len, far) {
        return at;
    }
    put_command(buf, at, code_of(e), l)
}

// The receives of t, or its sends.
fn put_messages(
    sheet: &[u8],
    buf: &mut [u8],
    start: usize,
    v: View,
    e: End,
    part: usize,
    len: usize,
    t: usize,
) -> usize
    requires { Small v × (start + 3 * v.links ≤ length buf.old) }
    ensures { MessagesIs sheet.now v buf.old buf.new e start part len t result }
{
    let mut at = start;
    for l in 0..v.links {
        at = put_message(sheet, buf, at, v, e, part, len, t, l);
    }
    at
}

// The block of t.
fn put_block(
    sheet: &[u8],
    buf: &mut [u8],
    at: usize,
    v: View,
    part: usize,
    len: usize,
    t: usize,
) -> usize
    requires { Small v × (at + block_room ≤ length buf.old) × (t < 256) }
    ensures { BlockIs sheet.now v buf.old buf.new at part len t result }
{
    let a = put_messages(sheet, buf, at, v, End::Target, part, len, t);
    let b = put_pair(buf, a, RUN_BYTE as u8, t);
    put_messages(sheet, buf, b, v, End::Source, part, len, t)
}

// The blocks of the last j tasks of `rest`, the oldest first.
fn put_tasks(
    sheet: &[u8],
    buf: &mut [u8],
    at: usize,
    v: View,
    part: usize,
    len: usize,
    rest: usize,
    j: usize,
) -> usize
    requires { Small v × (at + block_room * j ≤ length buf.old) × (j ≤ most) }
    ensures { TasksIs sheet.now v buf.old buf.new at part len rest j result }
{
    if j == 0 {
        return at;
    }
    let a = put_tasks(sheet, buf, at, v, part, len, rest / codes::BASE, j - 1);
    put_block(sheet, buf, a, v, part, len, rest % codes::MARK)
}

// Programmes in the buffer: where they end, and how many they are.
#[derive(Clone, Copy)]
pub struct Laid {
    pub at: usize,
    pub count: usize,
}

// The programmes of an arrangement.
fn put_programmes(sheet: &[u8], buf: &mut [u8], v: View, code: usize, len: usize) -> Laid
    requires { Small v × (programme_room * len ≤ length buf.old) × (len ≤ most) × Coded len code }
    ensures { ProgrammesIs sheet.now v buf.old buf.new code len result.at result.count }
{
    if len == 0 {
        return Laid { at: 0, count: 0 };
    }
    let p = codes::last_programme(code, len);
    let m = p.tasks;
    let q = put_programmes(sheet, buf, v, p.front, len - m);
    let k = q.count;
    let a = put_pair(buf, q.at, OPEN_BYTE as u8, k);
    let b = put_tasks(sheet, buf, a, v, code, m, code, m);
    Laid {
        at: b,
        count: k + 1,
    }
}

// The bundle of an arrangement with a claim: its length.
pub fn put_bundle(
    sheet: &[u8],
    buf: &mut [u8],
    v: View,
    code: usize,
    len: usize,
    claim: usize,
) -> usize
    requires { Small v × (room ≤ length buf.old) × (len ≤ most) × Coded len code }
    ensures { BundleIs sheet.now v buf.old buf.new code len claim result }
{
    let q = put_programmes(sheet, buf, v, code, len);
    buf[q.at] = CLAIM_BYTE as u8;
    numbers::put32(buf, q.at + 1, (claim % 4294967296) as u32);
    q.at + CLAIM_SIZE
}
