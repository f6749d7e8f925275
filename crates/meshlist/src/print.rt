// Lines of text, all but the last on standard output. Each function fails where not all of it was written.
use bits::Refusal;
use payload::ListCounts;
use std::io;

// A line for each record, of five words.
fn print_records(rt: &impl Print, records: &[u32]) -> io::Result<()> {
    for [eye, texture, mode, first, points] in records.as_chunks::<5>().0 {
        println!(rt; "{eye} {texture} {mode} {first} {points}")?;
    }
    Ok(())
}

// A line for each texture, with the points of its records together.
fn print_textures(rt: &impl Print, textures: &[u32]) -> io::Result<()> {
    for [texture, points] in textures.as_chunks::<2>().0 {
        println!(rt; "texture {texture} points {points}")?;
    }
    Ok(())
}

// The heading, the records, the textures and the totals.
pub fn print_lines(
    rt: &impl Print,
    counts: ListCounts,
    records: &[u32],
    textures: &[u32],
) -> io::Result<()> {
    println!(rt; "eye texture mode first points")?;
    print_records(rt, records)?;
    print_textures(rt, textures)?;
    println!(rt;
        "total {} {} {}",
        counts.meshes, counts.submeshes, counts.points
    )
}

pub fn print_refusal(rt: &impl Print, refusal: Refusal) -> io::Result<()> {
    println!(rt; "refused {}", refusal.number())
}

// How the program is used, on standard error.
pub fn print_use(rt: &impl Eprint) -> io::Result<()> {
    eprintln!(rt;
        "meshlist: reads a mesh list from standard input; arguments are not used: meshlist < FILE"
    )
}
