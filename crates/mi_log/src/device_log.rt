//! A log over a device, which it doesn't touch again once a write or a sync has failed.
ghost use Rattle.std.specs.Prelude.{◌≡◌, ◌≤◌, ◌+◌, None, true, false, not, is_ok, is_some, length, option_map, OnOk, OnErr};
ghost use Rattle.std.specs.Io.KnownBytes.{Appends, Keeps};
ghost use Rattle.mi_log.specs.Kept.{AppendsFront};

use crate::device::Device;
use crate::log::{Log, LogFault, LogState};
use std::io;
use std::io::{Error, ErrorKind};

/// The log of what is appended to a device from here on.
#[derive(Drop)]
pub struct DeviceLog<D> {
    device: D,
    segment: Option<u64>,
    error: Option<io::Error>,
}

impl<D> DeviceLog<D> {
    ghost use Rattle.mi_log.specs.DeviceLog.{device_of, segment_of, is_broken};

    /// The log of the segment of this number, or of none. Nothing has failed yet.
    pub fn new(device: D, segment: Option<u64>) -> DeviceLog<D>
        ensures device { device_of result ≡ device }
        ensures segment { segment_of result ≡ segment }
        ensures sound { is_broken result ≡ false }
    {
        DeviceLog {
            device,
            segment,
            error: None,
        }
    }

    /// A log over a device of which a call has failed, as by this error. It isn't used again.
    pub fn failed(device: D, error: io::Error) -> DeviceLog<D>
        ensures device { device_of result ≡ device }
        ensures segment { segment_of result ≡ None }
        ensures broken { is_broken result ≡ true }
    {
        DeviceLog {
            device,
            segment: None,
            error: Some(error),
        }
    }

    /// What it was written to.
    pub fn into_device(self) -> D
        ensures { result ≡ device_of self }
    {
        self.device
    }

    /// What it is written to.
    pub fn device(&self) -> &D
        ensures { result.now ≡ device_of self.now }
    {
        &self.device
    }

    /// What the device has said, where a call of it has failed.
    pub fn error(&self) -> Option<&io::Error>
        ensures { option_map (λ error. error.now) result ≡ self.now.error }
    {
        self.error.as_ref()
    }
}

/// Writes all the bytes, by write after write; or a front of them, and then fails.
fn write_all<D: Device>(device: &mut D, bytes: &[u8]) -> io::Result<()>
    ensures ok { OnOk result (Appends (D.contents device.old) (D.contents device.new) bytes.now) }
    ensures err { OnErr result (AppendsFront (D.contents device.old) (D.contents device.new) bytes.now) }
    ensures stays { Keeps (D.stays device.old) (D.stays device.new) }
    ensures makes_stay { D.makes_stay device.new ≡ D.makes_stay device.old }
    ensures room { D.lacks_room device.new ≡ D.lacks_room device.old }
    ensures left { OnOk result (D.room_left device.old ≤ D.room_left device.new + length bytes.now) }
{
    let mut at = 0;
    'bytes: while at < bytes.len() {
        let (_, left) = bytes.split_at(at);
        match device.write(left)? {
            0 => return Err(Error::from(ErrorKind::WriteZero)),
            n => at += n,
        }
    }
    Ok(())
}

impl<D: Device> DeviceLog<D> {
    ghost use Rattle.mi_log.specs.DeviceLog.{room_left};

    /// For how many bytes its device has room, and none where a call has failed.
    fn room(&self) -> u64
        ensures { result ≡ room_left D.room_left self.now }
    {
        if self.error.is_some() {
            0
        } else {
            self.device.room()
        }
    }
}

/// Notes what came of a call of the device, where none has failed before.
fn note(error: &mut Option<io::Error>, came: io::Result<()>) -> Result<(), LogFault>
    requires { error.old ≡ None }
    ensures noted { is_some error.new ≡ not (is_ok result) }
    ensures result { is_ok result ≡ is_ok came }
{
    match came {
        Ok(()) => Ok(()),
        Err(said) => {
            *error = Some(said);
            Err(LogFault)
        }
    }
}

impl<D: Device> Log for DeviceLog<D> {
    ghost use Rattle.std.specs.Prelude.{◌||◌};
    ghost use Rattle.mi_log.specs.DeviceLog.{device_of, segment_of, is_broken, room_left};

    ghost appended = { λ l. D.contents (device_of l) };

    ghost synced = { λ l. D.stays (device_of l) };

    ghost makes_stay = { λ l. D.makes_stay (device_of l) };

    ghost has_failed = { λ l. is_broken l };

    ghost lacks_room = { λ l. is_broken l || D.lacks_room (device_of l) };

    ghost room_left = { λ l. room_left D.room_left l };

    ghost segment = { λ l. segment_of l };

    fn make_room(&mut self, bytes: u64) -> bool {
        self.error.is_none() && self.device.make_room(bytes)
    }

    fn state(&self) -> LogState {
        LogState {
            bytes: self.device.written(),
            synced: self.device.synced(),
            is_full: self.error.is_some() || self.device.is_full(),
            room: self.room(),
            segment: self.segment,
        }
    }

    fn append(&mut self, bytes: &[u8]) -> Result<(), LogFault> {
        if self.error.is_some() {
            return Err(LogFault);
        }
        let written = write_all(&mut self.device, bytes);
        note(&mut self.error, written)
    }

    fn sync(&mut self) -> Result<(), LogFault> {
        if self.error.is_some() {
            return Err(LogFault);
        }
        let synced = self.device.sync_data();
        note(&mut self.error, synced)
    }
}
