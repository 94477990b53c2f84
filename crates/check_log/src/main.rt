// A log alone, as the recorder writes it: read from standard input and written again to standard output, or its refusal. Where something
// fails, one line on standard error says what, and a log that was not read to its end is not answered.
#![tactic(auto)]

fn main(rt: HostRuntime) {
    // One byte more than a log may have, to know one that is too long.
    let mut text = [0u8; 65537];
    match input::read_all(&mut rt.stdin(), &mut text) {
        Ok(bytes) => {
            let mut page = [0u8; 65536];
            let printed = log_text::output(&text[..bytes], &mut page);
            if let Err(error) = rt.write_all(&page[..printed]) {
                input::fail(&rt, "check_log: the log cannot be written", error);
            }
        }
        Err(error) => input::fail(&rt, "check_log: the log cannot be read", error),
    }
}
