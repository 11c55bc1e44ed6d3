// 26 and 31 to 33, by the notes of a bundle's commands.
ghost use Rattle.std.specs.Prelude.{◌≡◌, [], ◌∷◌, ◌≤◌, ◌<◌, length};
ghost use Rattle.folds.specs.Folds.{first_of};
ghost use Rattle.admission.specs.Notes.{slots_end, ahead, send_by, receive_by, order_by, fault_by};
ghost use Rattle.admission.specs.Rules.{OnceIs, LinkIs, MessageIs};
ghost use Rattle.refusals.specs.Refusals.{fault_of};

use crate::notes::NOTES;
use crate::view::View;
use refusals::{Fault, Refusal};

// 26: the lowest of n tasks that does not run just once.
pub fn not_once(w: &[u32], n: usize) -> Option<usize>
    requires { n < 65536 }
    ensures { OnceIs w.now n result }
{
    for t in 0..n {
        if workspace::total::word(w, NOTES + t) < 2 {
            return Some(t);
        }
    }
    None
}

// By their notes, the command of x stands before that of y, in one programme.
pub fn precedes(x: usize, y: usize) -> bool
    ensures { result ≡ ahead x y }
{
    x / 4096 == y / 4096 && x < y
}

// 31, by the notes of the source's run and of the send: a link inside one programme has none; any other has one, behind its source.
fn send_fault(inside: bool, source: usize, sent: usize) -> bool
    ensures { result ≡ send_by inside source sent }
{
    if inside {
        sent != 0
    } else {
        sent < 2 || !precedes(source, sent)
    }
}

// 32, by the notes of the receive and of the target's run: a link inside one programme has none; any other has one, before its target.
fn receive_fault(inside: bool, got: usize, target: usize) -> bool
    ensures { result ≡ receive_by inside got target }
{
    if inside {
        got != 0
    } else {
        got < 2 || !precedes(got, target)
    }
}

// 33: inside one programme the source runs behind the target.
fn order_fault(inside: bool, source: usize, target: usize) -> bool
    ensures { result ≡ order_by inside source target }
{
    inside && target <= source
}

// The first of three faults, if there is one: of the send, then of the receive, then of the order.
fn first_fault(send: bool, receive: bool, order: bool) -> Result<(), Fault>
    ensures { fault_of result ≡ first_of ((send, 31) ∷ (receive, 32) ∷ (order, 33) ∷ []) }
{
    if send {
        Err(Fault::WrongSend)
    } else if receive {
        Err(Fault::WrongReceive)
    } else if order {
        Err(Fault::LocalOrder)
    } else {
        Ok(())
    }
}

// The number of a link's fault by its notes, if it has one.
fn fault_by(source: usize, target: usize, sent: usize, got: usize) -> Result<(), Fault>
    ensures { fault_of result ≡ fault_by source target sent got }
{
    let inside = source / 4096 == target / 4096;
    let send = send_fault(inside, source, sent);
    let receive = receive_fault(inside, got, target);
    let order = order_fault(inside, source, target);
    first_fault(send, receive, order)
}

// What is wrong with the messages of link l: 31, 32, 33, or nothing.
fn link_fault(sheet: &[u8], w: &[u32], v: View, l: usize) -> Result<(), Fault>
    requires { (l < 1024) × (slots_end ≤ length w.now) }
    ensures { LinkIs sheet.now w.now v l result }
{
    let source = workspace::total::byte(sheet, v.source_at(l));
    let target = workspace::total::byte(sheet, v.target_at(l));
    let a = workspace::word(w, NOTES + source);
    let t = workspace::word(w, NOTES + target);
    let sent = workspace::word(w, NOTES + (256 + l));
    let got = workspace::word(w, NOTES + (1280 + l));
    fault_by(a, t, sent, got)
}

// 31 to 33: refused at the lowest link in fault, with the number of its fault.
pub fn wrong_message(sheet: &[u8], w: &[u32], v: View) -> Result<(), Refusal>
    requires { slots_end ≤ length w.now }
    ensures { MessageIs sheet.now w.now v result }
{
    for l in 0..v.links {
        refusals::at(link_fault(sheet, w, v, l), l)?;
    }
    Ok(())
}
