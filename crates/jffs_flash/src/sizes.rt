//! Which sizes a volume may have.

ghost use Rattle.std.specs.Prelude.{◌≡◌, ◌↔◌, IsTrue};
ghost use Rattle.jffs_flash.specs.Sizes.{is_geometry as allows_geometry};
ghost use Rattle.jffs_flash.specs.Sizes.{is_sector_size as allows_sector_size};

/// The fewest sectors that a volume may have.
pub const MIN_SECTORS: u32 = 6;

/// The most sectors that a volume may have.
pub const MAX_SECTORS: u32 = 64;

/// The sector sizes that a volume may have, in bytes.
pub const SECTOR_SIZES: [u32; 5] = [1024, 2048, 4096, 8192, 16384];

/// How many bytes the largest volume has.
pub const VOLUME_MAX: u64 = MAX_SECTORS as u64 * SECTOR_SIZES[4] as u64;

/// Whether a volume may have `sectors` sectors of `sector_size` bytes each.
pub fn is_geometry(sectors: u32, sector_size: u32) -> bool
    ensures { IsTrue result ↔ IsTrue (allows_geometry sectors sector_size) }
{
    MIN_SECTORS <= sectors && sectors <= MAX_SECTORS && is_sector_size(sector_size)
}

/// Whether a sector may have that many bytes.
fn is_sector_size(sector_size: u32) -> bool
    ensures { result ≡ allows_sector_size sector_size }
{
    SECTOR_SIZES.contains(&sector_size)
}
