//! A manifest of line feeds alone, at the limit of its bytes.
use super::run::folder;
use project_load::load;
use rotor_base::MAX_FILE_BYTES;
use std::test::Fail;

#[test]
fn blank_manifest(rt: HostRuntime) -> Result<(), Fail> {
    let alloc = rt.alloc();
    let mut text = String::new(alloc);
    for _ in 0..MAX_FILE_BYTES {
        text.push('\n')?;
    }
    let mut tree = folder(&rt, alloc, &[("rotor.units", text.as_str())], &[])?;
    assert!(rt; load(alloc, &mut tree).is_ok());
    Ok(())
}
