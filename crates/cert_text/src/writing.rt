//! The writing of numbers, sets, cites and loads.
//!
//! A set is written a hexadecimal digit for each four tasks, the first of the four as the highest bit: 256 digits for
//! 1,024 tasks. A number is written by a call of itself for what stands before the last digit, so by at most 20 calls.
//! Nothing takes memory but what the output takes.
ghost use Rattle.std.specs.Prelude.{◌≡◌, ◌≤◌, ◌<◌, ◌∷◌, []};
ghost use Rattle.cert_lines.specs.Numbers.{number_text, set_text, cites_text, mode_letter, load_text, last_text, four};
ghost use Rattle.cert_lines.specs.Numbers.{member, hex_digit};
ghost use Rattle.cert_text.specs.Sent.{Puts};

use crate::output::Output;
use cert_lines::TaskSet;
use line_rules::{Load, Mode};

/// Puts these bytes.
pub fn put_text<O: Output>(out: &mut O, text: &[u8])
    ensures { Puts O.told (O.sent out.old) text.now (O.sent out.new) }
{
    for byte in text {
        out.put(*byte);
    }
}

/// Puts a number, without a needless 0 in front.
pub fn put_number<O: Output>(out: &mut O, n: u64)
    ensures { Puts O.told (O.sent out.old) (number_text n) (O.sent out.new) }
{
    if n < 10 {
        out.put(b'0' + n as u8);
        return;
    }
    put_number(out, n / 10);
    out.put(b'0' + (n % 10) as u8);
}

// 1 where `i` is one of the tasks and a member.
#[inline]
fn member_of(set: &TaskSet, tasks: u32, i: u32) -> u8
    requires { tasks ≤ 1024 }
    ensures { result ≡ member tasks set.now i }
{
    if i >= tasks {
        return 0;
    }
    u8::from(set.has(i))
}

// The digit of the four tasks from `4 * k` on.
#[inline]
fn digit_of(set: &TaskSet, tasks: u32, k: u32) -> u8
    requires few { tasks ≤ 1024 }
    requires within { k < 256 }
    ensures { result ≡ hex_digit (four tasks set.now k) }
{
    let four = 8 * member_of(set, tasks, 4 * k)
        + 4 * member_of(set, tasks, 4 * k + 1)
        + 2 * member_of(set, tasks, 4 * k + 2)
        + member_of(set, tasks, 4 * k + 3);
    if four < 10 {
        b'0' + four
    } else {
        b'a' - 10 + four
    }
}

/// Puts a set of tasks, a digit for each four of them.
pub fn put_set<O: Output>(out: &mut O, set: &TaskSet, tasks: u32)
    requires { tasks ≤ 1024 }
    ensures { Puts O.told (O.sent out.old) (set_text tasks set.now) (O.sent out.new) }
{
    for k in 0..(tasks + 3) / 4 {
        out.put(digit_of(set, tasks, k));
    }
}

/// Puts numbers with a comma between, or `-` for none.
pub fn put_cites<O: Output>(out: &mut O, cites: &[u64])
    ensures { Puts O.told (O.sent out.old) (cites_text cites.now) (O.sent out.new) }
{
    let Some(first) = cites.first() else {
        out.put(b'-');
        return;
    };
    put_number(out, *first);
    for cite in &cites[1..] {
        out.put(b',');
        put_number(out, *cite);
    }
}

/// Puts the letter of a mode.
pub fn put_mode<O: Output>(out: &mut O, mode: Mode)
    ensures { Puts O.told (O.sent out.old) (mode_letter mode ∷ []) (O.sent out.new) }
{
    out.put(match mode {
        Mode::Fore => b'f',
        Mode::Back => b'b',
        Mode::Both => b'u',
    });
}

/// Puts a load: the part that the mode has, or both with a stroke between.
pub fn put_load<O: Output>(out: &mut O, load: &Load, mode: Mode, tasks: u32)
    requires { tasks ≤ 1024 }
    ensures { Puts O.told (O.sent out.old) (load_text tasks mode load.now) (O.sent out.new) }
{
    match mode {
        Mode::Fore => put_set(out, &load.front, tasks),
        Mode::Back => put_set(out, &load.back, tasks),
        Mode::Both => {
            put_set(out, &load.front, tasks);
            out.put(b'/');
            put_set(out, &load.back, tasks);
        }
    }
}

/// Puts a last load, or `-` for none.
pub fn put_last<O: Output>(out: &mut O, last: &Option<Load>, mode: Mode, tasks: u32)
    requires { tasks ≤ 1024 }
    ensures { Puts O.told (O.sent out.old) (last_text tasks mode last.now) (O.sent out.new) }
{
    match last {
        Some(load) => put_load(out, load, mode, tasks),
        None => out.put(b'-'),
    }
}
