// Lists the records of a trace file.
use crate::faults::Fault;
use crate::hex::Hex;
use std::fs;
use trace::{Record, Trace};

pub fn run(rt: &HostRuntime, path: String) -> Result<(), Fault> {
    // By a match: the path moves into this error or the next one, so a closure can't take it.
    let file = match fs::read(rt, path.as_str()) {
        Ok(file) => file,
        Err(why) => return Err(Fault::Unreadable(path, why)),
    };
    let trace = Trace::read(file.as_slice()).map_err(|refusal| Fault::Refused(path, refusal))?;
    list(rt, trace)
}

fn list(rt: &HostRuntime, trace: Trace) -> Result<(), Fault> {
    for (n, Record { port, packet }) in trace.records().enumerate() {
        let length = packet.len();
        let bytes = Hex(packet);
        println!(rt; "{n} {port} {length} {bytes}")?;
    }
    let count = trace.count();
    println!(rt; "records {count}")?;
    Ok(())
}
