// The printing program: standard input is an image and event words, and their run is printed on
// standard output. Where the input cannot be read to its end nothing is printed; that, and an output
// that cannot be written whole, is said in a line on standard error. The exit status is 0 all the same.
#![tactic(auto)]

mod reading;

fn main(rt: HostRuntime) {
    // A word more than an input may have: a longer one is cut here, and is refused all the same.
    let mut input = [0u8; machine::INPUT_BYTES + 4];
    match reading::read_all(&mut rt.stdin(), &mut input) {
        Ok(count) => print(&rt, &input[..count]),
        Err(_) => {
            let _ = eprintln!(rt; "zaguypo-replay: standard input cannot be read");
        }
    }
}

// The text of the run that the input holds, on standard output.
fn print(rt: &(impl Print + Eprint), input: &[u8]) {
    let mut out = [0u8; machine::TEXT_BYTES];
    let length = text::print_run(input, &mut out);
    if rt.write_all(&out[..length]).is_err() {
        let _ = eprintln!(rt; "zaguypo-replay: standard output cannot be written whole");
    }
}
