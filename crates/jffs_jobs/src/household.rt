//! What a small device keeps on its volume: for each service a directory with its settings, and of
//! some services a log.

use crate::fault::Fault;
use crate::random::{Random, count, noise, noisy};
use crate::service::{Service, look_at_service, make_service, set_up_service, take_step};
use crate::volume::{LARGE, SMALL, Sizes, Volume};
use jffs_flash::{Flash, MemoryFlash};
use jffs_tree::Outcome;
use std::alloc::Global;

/// The file that stands still.
const FIRMWARE: &str = "/firmware";

/// How often a look at a household is one at some place of its firmware.
const FIRMWARE_LOOKS: u32 = 4;

/// What a household has, and how much of the volume's room it fills at least.
#[derive(Clone, Copy, Debug)]
pub(crate) struct Plan {
    pub(crate) sizes: Sizes,
    services: u32,
    /// How many of the services have a log.
    logs: u32,
    /// A log is rotated at this many bytes, or at up to twice as many.
    log_len: u32,
    /// What stands still fills the room up to so many hundredths.
    percent: u32,
}

impl Plan {
    /// A large device.
    pub(crate) fn large(percent: u32) -> Plan {
        Plan {
            sizes: LARGE,
            services: 12,
            logs: 6,
            log_len: 10_000,
            percent,
        }
    }

    /// A small device.
    pub(crate) fn small(percent: u32) -> Plan {
        Plan {
            sizes: SMALL,
            services: 2,
            logs: 1,
            log_len: 2_500,
            percent,
        }
    }
}

/// A device with its volume.
#[derive(Drop)]
pub(crate) struct Household<F: Flash> {
    pub(crate) volume: Volume<F>,
    random: Random,
    plan: Plan,
    noise: Vec<u8>,
    services: Vec<Service>,
    /// How many bytes stand still.
    firmware_len: u32,
}

impl Household<MemoryFlash> {
    /// A new device, whose volume is erased.
    pub(crate) fn new(
        alloc: Global,
        plan: Plan,
        seed: u64,
        part: u64,
    ) -> Result<Household<MemoryFlash>, Fault> {
        let volume = Volume::erased(alloc, plan.sizes)?;
        Household::on(volume, plan, Random::new(seed, part))
    }

    /// Ends the last session, and says what came of all.
    pub(crate) fn end(self) -> Result<u64, Fault> {
        let (flash, mut digest) = self.volume.close()?;
        digest.add_bytes(flash.bytes());
        Ok(digest.number())
    }

    /// Ends the session and begins another one.
    pub(crate) fn mount_again(self) -> Result<Household<MemoryFlash>, Fault> {
        let Household {
            volume,
            random,
            plan,
            noise,
            services,
            firmware_len,
        } = self;
        Ok(Household {
            volume: volume.mount_again()?,
            random,
            plan,
            noise,
            services,
            firmware_len,
        })
    }
}

impl<F: Flash + Drop> Household<F> {
    /// A device over a volume, on which nothing is done yet.
    pub(crate) fn on(volume: Volume<F>, plan: Plan, random: Random) -> Result<Household<F>, Fault> {
        let mut random = random;
        let alloc = volume.alloc;
        let noise = noise(alloc, &mut random)?;
        let mut services = Vec::new(alloc);
        for number in 0..plan.services {
            let log_len = if number < plan.logs { plan.log_len } else { 0 };
            services.push(make_service(alloc, &mut random, number, log_len)?)?;
        }
        Ok(Household {
            volume,
            random,
            plan,
            noise,
            services,
            firmware_len: 0,
        })
    }

    /// Makes all directories, settings and logs, and fills the room as the plan says.
    pub(crate) fn set_up(&mut self) -> Result<(), Fault> {
        for service in self.services.iter() {
            set_up_service(&mut self.volume, &mut self.random, &self.noise, service)?;
        }
        self.fill()
    }

    /// Writes what stands still, in records as long as may be.
    fn fill(&mut self) -> Result<(), Fault> {
        let bound = self.plan.sizes.bound();
        let wanted = bound.saturating_mul(u64::from(self.plan.percent)) / 100;
        let most = self.volume.core().limits().data_max;
        self.volume.create(FIRMWARE)?;
        for part in 0..1000u32 {
            if self.volume.weight() >= wanted {
                break;
            }
            let offset = part.saturating_mul(most);
            let data = noisy(&self.noise, &mut self.random, most);
            if let Outcome::Appended { .. } = self.volume.write(FIRMWARE, offset, data)? {
                self.firmware_len = offset.saturating_add(most);
            }
        }
        Ok(())
    }

    /// Makes so many steps.
    pub(crate) fn live_on(&mut self, steps: u32) -> Result<(), Fault> {
        for _ in 0..steps {
            self.step()?;
        }
        Ok(())
    }

    /// What one of the services does next.
    fn step(&mut self) -> Result<(), Fault> {
        let at = self.random.below(count(&self.services));
        let Some(service) = self.services.get_mut(at as usize) else {
            return Ok(());
        };
        take_step(&mut self.volume, &mut self.random, &self.noise, service)
    }

    /// Looks at a setting and the log of each service and at some of what stands still, on a volume
    /// that has what this one has.
    pub(crate) fn look_at<G: Flash + Drop>(&mut self, volume: &mut Volume<G>) -> Result<(), Fault> {
        for service in self.services.iter() {
            look_at_service(volume, &mut self.random, service)?;
        }
        for _ in 0..FIRMWARE_LOOKS {
            let offset = self.random.below(self.firmware_len.max(1));
            volume.look(FIRMWARE, offset)?;
        }
        Ok(())
    }
}
