// What the two calls report, in words, put behind what a buffer holds.
#![tactic(auto)]

ghost use Rattle.std.specs.Prelude.{◌≡◌, ◌+◌, ◌≤◌, ◌++◌, length};
ghost use Rattle.arrayvec.specs.ArrayVec.{array_vec_len};
ghost use Rattle.wording.specs.Text.{number_of};
ghost use Rattle.wording.specs.Words.{name_of, amount_of, base_of, ending_of, about_of, refusal_of};

use arrayvec::ArrayVec;
use bridge::report::Report;

// Appends a text.
pub fn put_text<const CAP: usize>(out: &mut ArrayVec<u8, CAP>, text: &[u8])
    requires { array_vec_len out.old + length text.now ≤ CAP }
    ensures { out.new.items ≡ out.old.items ++ text.now }
{
    let _ = out.try_extend_from_slice(text);
}

// Appends a number in decimal digits.
pub fn put_number<const CAP: usize>(out: &mut ArrayVec<u8, CAP>, n: u32)
    requires { array_vec_len out.old + 10 ≤ CAP }
    ensures appended { out.new.items ≡ out.old.items ++ number_of n }
    ensures upper_bound { array_vec_len out.new ≤ array_vec_len out.old + 10 }
{
    let mut digits = [0u8; 20];
    let k = io::decimal(u64::from(n), &mut digits);
    put_text(out, &digits[..k]);
}

// The name of an ending, and a space.
#[tactic(auto, unfolding(crate::specs::Words::name_of))]
fn name(ending: u32) -> &'static [u8]
    ensures value { result.now ≡ name_of ending }
    ensures upper_bound { length result.now ≤ 10 }
{
    match ending {
        1 => b"value ",
        2 => b"exception ",
        3 => b"stuck ",
        4 => b"out ",
        5 => b"deep ",
        _ => b"big ",
    }
}

// Appends the amount, which only a value, an exception and a stuck ending have.
#[tactic(auto, unfolding(crate::specs::Words::amount_of))]
fn put_amount<const CAP: usize>(out: &mut ArrayVec<u8, CAP>, ending: u32, amount: u32)
    requires { array_vec_len out.old + 10 ≤ CAP }
    ensures appended { out.new.items ≡ out.old.items ++ amount_of ending amount }
    ensures upper_bound { array_vec_len out.new ≤ array_vec_len out.old + 10 }
{
    if ending <= 3 {
        put_number(out, amount);
    } else {
        put_text(out, b"-");
    }
}

// The base, which only a value has, between spaces.
#[tactic(auto, unfolding(crate::specs::Words::base_of))]
fn base(base: u32) -> &'static [u8]
    ensures value { result.now ≡ base_of base }
    ensures upper_bound { length result.now ≤ 7 }
{
    match base {
        1 => b" zero ",
        2 => b" true ",
        3 => b" false ",
        _ => b" - ",
    }
}

// Appends an ending: its name, its amount, its base and its steps.
#[tactic(auto, unfolding(crate::specs::Words::ending_of))]
pub fn put_ending<const CAP: usize>(out: &mut ArrayVec<u8, CAP>, report: Report)
    requires { array_vec_len out.old + 37 ≤ CAP }
    ensures appended { out.new.items ≡ out.old.items ++ ending_of report }
    ensures upper_bound { array_vec_len out.new ≤ array_vec_len out.old + 37 }
{
    put_text(out, name(report.ending));
    put_amount(out, report.ending, report.amount);
    put_text(out, base(report.base));
    put_number(out, report.steps);
}

// What a refusal is about, and a space.
#[tactic(auto, unfolding(crate::specs::Words::about_of))]
fn about(about: u32) -> &'static [u8]
    ensures value { result.now ≡ about_of about }
    ensures upper_bound { length result.now ≤ 17 }
{
    match about {
        2 => b"refused question ",
        _ => b"refused program ",
    }
}

// Appends a refusal: what it is about, its number and its place.
#[tactic(auto, unfolding(crate::specs::Words::refusal_of))]
pub fn put_refusal<const CAP: usize>(out: &mut ArrayVec<u8, CAP>, report: Report)
    requires { array_vec_len out.old + 38 ≤ CAP }
    ensures appended { out.new.items ≡ out.old.items ++ refusal_of report }
    ensures upper_bound { array_vec_len out.new ≤ array_vec_len out.old + 38 }
{
    put_text(out, about(report.about));
    put_number(out, report.number);
    put_text(out, b" ");
    put_number(out, report.place);
}
