//! An example of the library in use: settings that outlast a crash. It sets some, stops without an
//! unmount, opens what the flash holds then, and prints them.
#![tactic(auto)]

mod settings;

use jffs_flash::MemoryFlash;
use settings::{SettingFault, Settings};
use std::process::ExitCode;

fn main(rt: HostRuntime) -> ExitCode {
    match run(&rt) {
        Ok(()) => ExitCode::SUCCESS,
        Err(_) => ExitCode::FAILURE,
    }
}

fn run<Rt: AllocGlobal + Print>(rt: &Rt) -> Result<(), SettingFault> {
    let flash = MemoryFlash::new(rt.alloc(), 6, 1024)?;
    let mut settings = Settings::open(rt.alloc(), flash)?;
    settings.set("/brightness", 40)?;
    settings.set("/loudness", 7)?;
    settings.set("/loudness", 11)?;
    let settings = Settings::open(rt.alloc(), settings.crash())?;
    for key in ["/brightness", "/loudness", "/contrast"] {
        match settings.get(key)? {
            Some(value) => println!(rt; "{key} {value}")?,
            None => println!(rt; "{key} is not set")?,
        }
    }
    Ok(())
}
