//! A service of a small device: a directory with its settings, and perhaps a log.

use crate::fault::Fault;
use crate::random::{Random, count, noisy};
use crate::volume::Volume;
use jffs_flash::Flash;
use jffs_tree::Outcome;
use std::alloc::Global;

/// A file of 20 to 400 bytes that is written over or replaced.
#[derive(Drop)]
struct Setting {
    path: String,
    len: u32,
}

/// A file to which lines are appended, until it takes the place of the old one.
#[derive(Drop)]
struct Log {
    path: String,
    old: String,
    size: u32,
    limit: u32,
}

/// A directory with settings, and perhaps a log.
#[derive(Drop)]
pub(crate) struct Service {
    directory: String,
    /// Where a setting is written that replaces another one.
    unfinished: String,
    settings: Vec<Setting>,
    log: Option<Log>,
}

/// A service with twelve settings, and with a log unless the length at which that is rotated is 0.
pub(crate) fn make_service(
    alloc: Global,
    random: &mut Random,
    number: u32,
    log_len: u32,
) -> Result<Service, Fault> {
    let directory = format!(in alloc; "/service{number}")?;
    let settings = make_settings(alloc, random, directory.as_str())?;
    let log = match log_len {
        0 => None,
        _ => Some(make_log(alloc, directory.as_str(), random.from(log_len, log_len))?),
    };
    Ok(Service {
        unfinished: format!(in alloc; "{directory}/unfinished")?,
        directory,
        settings,
        log,
    })
}

fn make_settings(
    alloc: Global,
    random: &mut Random,
    directory: &str,
) -> Result<Vec<Setting>, Fault> {
    let mut settings = Vec::new(alloc);
    for setting in 0..12u32 {
        settings.push(Setting {
            path: format!(in alloc; "{directory}/setting{setting}")?,
            len: random.from(20, 380),
        })?;
    }
    Ok(settings)
}

fn make_log(alloc: Global, directory: &str, limit: u32) -> Result<Log, Fault> {
    Ok(Log {
        path: format!(in alloc; "{directory}/log")?,
        old: format!(in alloc; "{directory}/log.old")?,
        size: 0,
        limit,
    })
}

/// Makes a service's directory, settings and logs.
pub(crate) fn set_up_service<F: Flash + Drop>(
    volume: &mut Volume<F>,
    random: &mut Random,
    noise: &[u8],
    service: &Service,
) -> Result<(), Fault> {
    volume.make_dir(service.directory.as_str())?;
    for setting in service.settings.iter() {
        volume.create(setting.path.as_str())?;
        let data = noisy(noise, random, setting.len);
        volume.write(setting.path.as_str(), 0, data)?;
    }
    if let Some(log) = &service.log {
        volume.create(log.old.as_str())?;
        volume.create(log.path.as_str())?;
    }
    Ok(())
}

/// What a service does next: mostly a line for a log, or a setting that is written over.
pub(crate) fn take_step<F: Flash + Drop>(
    volume: &mut Volume<F>,
    random: &mut Random,
    noise: &[u8],
    service: &mut Service,
) -> Result<(), Fault> {
    match random.below(30) {
        0..=14 => append_line(volume, random, noise, service),
        15..=23 => write_over(volume, random, noise, service),
        24..=26 => replace(volume, random, noise, service),
        27 | 28 => cut(volume, random, noise, service),
        _ => ask_in_vain(volume, random, service),
    }
}

/// Looks at a setting and the log of a service.
pub(crate) fn look_at_service<F: Flash + Drop>(
    volume: &mut Volume<F>,
    random: &mut Random,
    service: &Service,
) -> Result<(), Fault> {
    let at = random.below(count(&service.settings)) as usize;
    if let Some(setting) = service.settings.get(at) {
        volume.look(setting.path.as_str(), 0)?;
    }
    if let Some(log) = &service.log {
        volume.look(log.path.as_str(), log.size / 2)?;
    }
    Ok(())
}

fn setting_of<'a>(service: &'a mut Service, random: &mut Random) -> Option<&'a mut Setting> {
    let at = random.below(count(&service.settings));
    service.settings.get_mut(at as usize)
}

/// Appends a line of 40 to 190 bytes to the log, which is rotated once it is long; a service
/// without a log writes over a setting.
fn append_line<F: Flash + Drop>(
    volume: &mut Volume<F>,
    random: &mut Random,
    noise: &[u8],
    service: &mut Service,
) -> Result<(), Fault> {
    let Some(log) = &mut service.log else {
        return write_over(volume, random, noise, service);
    };
    let len = random.from(40, 150);
    let line = noisy(noise, random, len);
    match volume.write(log.path.as_str(), log.size, line)? {
        Outcome::Refused(_) => rotate(volume, log)?,
        _ => log.size = log.size.saturating_add(len),
    }
    if log.size >= log.limit {
        rotate(volume, log)?;
    }
    Ok(())
}

/// The log takes the place of the old one, and a new one begins.
fn rotate<F: Flash + Drop>(volume: &mut Volume<F>, log: &mut Log) -> Result<(), Fault> {
    volume.remove(log.old.as_str())?;
    volume.rename(log.path.as_str(), log.old.as_str())?;
    volume.create(log.path.as_str())?;
    log.size = 0;
    Ok(())
}

/// Writes over a setting, or over a part of it.
fn write_over<F: Flash + Drop>(
    volume: &mut Volume<F>,
    random: &mut Random,
    noise: &[u8],
    service: &mut Service,
) -> Result<(), Fault> {
    let Some(setting) = setting_of(service, random) else {
        return Ok(());
    };
    let offset = if random.once_in(4) {
        random.below(setting.len.max(1))
    } else {
        0
    };
    let data = noisy(noise, random, setting.len.saturating_sub(offset));
    volume.write(setting.path.as_str(), offset, data)?;
    Ok(())
}

/// Writes a setting anew beside the old one, and has it take the place of that.
fn replace<F: Flash + Drop>(
    volume: &mut Volume<F>,
    random: &mut Random,
    noise: &[u8],
    service: &mut Service,
) -> Result<(), Fault> {
    let len = random.from(20, 380);
    volume.create(service.unfinished.as_str())?;
    volume.write(service.unfinished.as_str(), 0, noisy(noise, random, len))?;
    let at = random.below(count(&service.settings)) as usize;
    if let Some(setting) = service.settings.get_mut(at) {
        volume.remove(setting.path.as_str())?;
        volume.rename(service.unfinished.as_str(), setting.path.as_str())?;
        setting.len = len;
    }
    Ok(())
}

/// Cuts a setting, and writes what it has then.
fn cut<F: Flash + Drop>(
    volume: &mut Volume<F>,
    random: &mut Random,
    noise: &[u8],
    service: &mut Service,
) -> Result<(), Fault> {
    let Some(setting) = setting_of(service, random) else {
        return Ok(());
    };
    setting.len = random.from(20, 380);
    volume.truncate(setting.path.as_str(), setting.len / 2)?;
    volume.write(setting.path.as_str(), 0, noisy(noise, random, setting.len))?;
    Ok(())
}

/// Asks for what is refused.
fn ask_in_vain<F: Flash + Drop>(
    volume: &mut Volume<F>,
    random: &mut Random,
    service: &mut Service,
) -> Result<(), Fault> {
    match random.below(4) {
        0 => volume.remove("/service0/nothing")?,
        1 => volume.make_dir(service.directory.as_str())?,
        2 => volume.create("/nothing/at/all")?,
        _ => volume.remove(service.directory.as_str())?,
    };
    Ok(())
}
