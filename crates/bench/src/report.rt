// What the benchmark prints.
use crate::jobs::jobs;
use memory::Memory;
use std::time::Instant;
use surface::Source;

// A number that depends on every pixel of a line.
fn digest(line: &[u16; 512]) -> u32 {
    line.iter().fold(0, |sum: u32, pixel| {
        sum.wrapping_mul(31).wrapping_add(u32::from(*pixel))
    })
}

// A few spans of each job, and the digest of the line that they leave.
pub(crate) fn check_all<M: Memory>(
    rt: &HostRuntime,
    from: &str,
    source: Source<'_, M>,
) -> anyhow::Result<()> {
    for job in jobs() {
        let mut line = [0u16; 512];
        let refused = job.draw(&mut line, 16, source);
        let name = job.name;
        let sum = digest(&line);
        println!(rt; "{name}, from {from}: 16 spans, {refused} refused, digest 0x{sum:08X}")?;
    }
    Ok(())
}

// Columns in a second.
fn rate(spans: u32, columns: u16, micros: u128) -> u128 {
    spans as u128 * columns as u128 * 1_000_000 / micros.max(1)
}

// So many spans of each job, and the columns drawn in a second.
pub(crate) fn time_all<M: Memory>(
    rt: &HostRuntime,
    from: &str,
    source: Source<'_, M>,
    spans: u32,
) -> anyhow::Result<()> {
    for job in jobs() {
        let mut line = [0u16; 512];
        let start = Instant::now(rt)?;
        let refused = job.draw(&mut line, spans, source);
        let rate = rate(spans, job.columns, start.elapsed(rt)?.as_micros());
        let name = job.name;
        println!(rt;
            "{name}, from {from}: {spans} spans, {refused} refused, {rate} columns per second"
        )?;
    }
    Ok(())
}
