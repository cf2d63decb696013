//! The configuration as bytes: size of a block (8 bytes), node (2), padding (6), address (8), size
//! of the region (8), of its usable part (8), plugged size (8), requested size (8).

ghost use Rattle.std.specs.Prelude.{◌≡◌, ◌≢◌, ◌↔◌, IfOk, length};
ghost use Rattle.evac_model.specs.declared.device.Config.{Config};
ghost use Rattle.mem_codec.specs.ConfigBytes.{ConfigBytes, config_bytes};
ghost use Rattle.mem_codec.specs.Reading.{config_at};

use crate::fault::ConfigFault;
use crate::field::{put_u16, put_u64, u16_at, u64_at};
use evac_model::Config;

/// The bytes of the configuration.
pub const CONFIG_BYTES: usize = 56;

/// The configuration that the bytes spell (Virtio 1.2, 5.15.4). `Length`: there aren't 56 bytes.
/// The padding is ignored.
pub fn read_config(bytes: &[u8]) -> Result<Config, ConfigFault>
    // What is read is spelled so, and what is spelled so is read.
    ensures found { IfOk result (λ c. ConfigBytes bytes.now c) }
    ensures only { (c : Config) → ConfigBytes bytes.now c → result ≡ Ok c }

    // Bytes of that length are a configuration.
    ensures length_fault { (result ≡ Err ConfigFault.Length) ↔ (length bytes.now ≢ CONFIG_BYTES) }
{
    if bytes.len() != CONFIG_BYTES {
        return Err(ConfigFault::Length);
    }
    Ok(config_of(bytes))
}

// The numbers at the places of the fields.
fn config_of(bytes: &[u8]) -> Config
    requires { length bytes.now ≡ CONFIG_BYTES }
    ensures { result ≡ config_at bytes.now }
{
    Config {
        block_size: u64_at(bytes, 0),
        node_id: u16_at(bytes, 8),
        addr: u64_at(bytes, 16),
        region_size: u64_at(bytes, 24),
        usable_region_size: u64_at(bytes, 32),
        plugged_size: u64_at(bytes, 40),
        requested_size: u64_at(bytes, 48),
    }
}

/// Writes the configuration, with zeros in its padding.
pub fn write_config(c: &Config, out: &mut [u8; 56])
    ensures { out.new ≡ config_bytes c.now }
{
    *out = [0; 56];
    put_u64(out, 0, c.block_size);
    put_u16(out, 8, c.node_id);
    put_u64(out, 16, c.addr);
    put_u64(out, 24, c.region_size);
    put_u64(out, 32, c.usable_region_size);
    put_u64(out, 40, c.plugged_size);
    put_u64(out, 48, c.requested_size);
}
