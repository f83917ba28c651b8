//! Syncs and writes that the system refuses, by devices that no caller can make. A sync of /dev/null fails, as does one of
//! what stands in /proc, and a write to /dev/full. So a body that makes no call is seen.

ghost use Rattle.std.specs.Prelude.{◌≡◌, ◌<◌, ◌≤◌};

use crate::file::open_still;
use crate::{FileDevice, FileWatch};
use std::fs::{File, OpenOptions};
use std::path::PathBuf;
use std::sync::Arc;
use std::test::Fail;
use std::{fs, io};
use tc_store::{Device, DeviceFault, FileName, Watch};

/// A device that writes and syncs what stands at these paths.
fn device_of(rt: HostRuntime, file: &str, folder: &str, is_named: bool) -> io::Result<FileDevice> {
    let alloc = rt.alloc();
    Ok(FileDevice {
        name: FileName::Log { generation: 7 },
        path: PathBuf::from_str(alloc, file)?,
        file: OpenOptions::new().write(true).create(true).open(&rt, file)?,
        folder: Arc::new(alloc, File::open(&rt, ".")?)?,
        own_folder: File::open(&rt, folder)?,
        len: 0,
        is_named,
        has_failed: false,
    })
}

#[test]
fn a_sync_is_of_the_file_and_the_first_of_the_folder_too(rt: HostRuntime) -> Result<(), Fail> {
    let rows = [
        ("tc_files_test", ".", false, true),
        ("tc_files_test", "/dev/null", false, false),
        ("tc_files_test", "/dev/null", true, true),
        ("/dev/null", ".", false, false),
        ("/dev/null", ".", true, false),
    ];
    for (file, folder, is_named, succeeds) in rows {
        let mut watch = FileWatch::new();
        let mut device = device_of(rt, file, folder, is_named)?;
        assert_eq!(rt;
            device.sync(&mut watch).is_ok(),
            succeeds,
            "{file} {folder}"
        );
        assert_eq!(rt; watch.faults(), u64::from(!succeeds));
    }
    fs::remove_file(&rt, "tc_files_test")?;
    Ok(())
}

#[test]
fn what_the_system_refuses_is_a_fault(rt: HostRuntime) -> Result<(), Fail> {
    let mut watch = FileWatch::new();
    let mut device = device_of(rt, "/dev/full", ".", true)?;
    assert_eq!(rt;
        device.write_at(0, b"x", &mut watch),
        Err(DeviceFault::Fault)
    );
    assert_eq!(rt; device.len(), 0);
    assert!(rt; open_still(&rt, "/proc/version").is_err());
    Ok(())
}
