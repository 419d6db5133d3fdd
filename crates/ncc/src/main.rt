// Writes the sheet of the filing on standard input.
#![tactic(auto)]

use std::io;

fn main(rt: HostRuntime) -> io::Result<()> {
    let Ok(filed) = file_run::run(&mut rt.stdin()) else {
        return eprintln!(rt; "ncc: standard input cannot be read");
    };
    if file_run::write(&mut rt.stdout(), filed.printed).is_err() {
        return eprintln!(rt; "ncc: the sheet cannot be written");
    }
    Ok(())
}
