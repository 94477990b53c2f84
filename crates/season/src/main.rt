// The office program: a season's text on standard input, its report on standard output. Where something fails, one line on standard error
// says what, and a text that was not read to its end is not answered.
#![tactic(auto)]

fn main(rt: HostRuntime) {
    // One byte more than an input may have, to know one that is too long.
    let mut text = [0u8; 65537];
    match input::read_all(&mut rt.stdin(), &mut text) {
        Ok(bytes) => {
            let mut page = report::longest_page();
            let printed = season_text::output(&text[..bytes], &mut page);
            if let Err(error) = rt.write_all(&page[..printed]) {
                input::fail(&rt, "season: the report cannot be written", error);
            }
        }
        Err(error) => input::fail(&rt, "season: the input cannot be read", error),
    }
}
