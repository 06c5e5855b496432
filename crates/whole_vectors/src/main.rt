// Runs vectors of `whole` and `whole::decimal` on both sides of their limits. `stdout` has the expected answers, worked out by hand and by IEEE 754.
#![tactic(auto)]

use whole::AboveTop;

// The decimal text of n, and the newline that the line is filled with.
fn show(n: u64) {
    let mut line = [10u8; 21];
    let end = whole::decimal::put_decimal(&mut line, 0, n);
    io::write_all(1, &line[..end + 1]);
}

// A product or a sum.
fn show_answer(answer: Result<f64, AboveTop>) {
    match answer {
        Ok(x) => {
            show(whole::whole_part(x));
        }
        Err(AboveTop) => {
            io::write_all(1, b"above\n");
        }
    }
}

// The casts at their limits.
fn casts() {
    show(whole::whole_part(whole::exact_f64(0)));
    show(whole::whole_part(whole::exact_f64(15000)));
    show(whole::whole_part(whole::exact_f64(9007199254740991)));
    show(whole::whole_part(9007199254740991.0));
    show(whole::whole_part(2.5));
    show(whole::whole_part(-0.5));
    show(whole::whole_part(-1.0));
    show(whole::whole_part(18446744073709549568.0));
    show(whole::whole_part(18446744073709551616.0));
    show(whole::whole_part(0.0 / 0.0));
}

fn texts() {
    show(0);
    show(9);
    show(10);
    show(9007199254740991);
    show(18446744073709551615);
}

fn main() {
    texts();
    show_answer(whole::product(94906265.0, 94906265.0));
    show_answer(whole::product(94906266.0, 94906266.0));
    show_answer(whole::product(9007199254740991.0, 9007199254740991.0));
    show_answer(whole::sum(9007199254740990.0, 1.0));
    show_answer(whole::sum(9007199254740991.0, 1.0));
    casts();
}
