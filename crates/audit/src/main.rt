// The program `audit`: audits a problem file with a values file and a picks file, and prints the answer.
#![tactic(auto)]

use model::LINE_MOST;
use printing::messages::complain;
use printing::table_files::{PICKS_ROOM, VALUES_ROOM};
use programs::FILE_ROOM;
use programs::files::{Program, Told, are_names, arg_count};
use std::io::Write;
use std::rt::{Env, Files};

// A file that is longer than the longest is refused as its front is, and a longer table gets the answer of its entries of states
// (`Audits`).
fn audit_named<R: Env + Files + Print, W: Write>(program: &mut Program<R, W>) -> Result<(), Told> {
    let mut file = [0u8; FILE_ROOM];
    let got = program.read_named(1, &mut file);
    let i = got.map_err(|_| Told)?.len();
    let mut values = [0u8; VALUES_ROOM];
    let got = program.read_named(2, &mut values);
    let j = got.map_err(|_| Told)?.len();
    let mut picks = [0u8; PICKS_ROOM];
    let got = program.read_named(3, &mut picks);
    let k = got.map_err(|_| Told)?.len();
    let mut line = [0u8; LINE_MOST];
    let n = programs::audit_line(&file, i, &values, j, &picks, k, &mut line);
    let printed = program.rt.write_all(&line[..n]);
    program.told(b"standard output", printed)
}

fn main(rt: HostRuntime) {
    let mut program = Program {
        name: b"audit",
        rt: &rt,
        messages: rt.stderr(),
    };
    let count = arg_count(&rt);
    if count == 4 && are_names(&rt, 1, count) {
        let _ = audit_named(&mut program);
        return;
    }
    complain(
        &mut program.messages,
        b"audit: give three names: FILE VALUES PICKS\n",
    );
}
