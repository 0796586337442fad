//! What an Initialize asks for, and what it opens (IAudioClient::Initialize).

ghost use Rattle.std.specs.Prelude.{◌≡◌, ◌*◌, ◌≤◌, ◌==◌, ◌||◌, true, Some, IfOk};
ghost use Rattle.std.specs.Result.{result_err};
ghost use Rattle.ca_base.specs.declared.limits.TheConstants.{MAX_STORE_WORDS};
ghost use Rattle.ca_base.specs.Rows.{first};
ghost use Rattle.wave_format.specs.Format.{frames_of_time, is_listed, spelled};
ghost use Rattle.ca_machine.specs.Formats.{is_exclusive};
ghost use Rattle.ca_machine.specs.Openings.{argument_rows, buffer_of, buffers_of, format_rows, has_event, has_loopback};
ghost use Rattle.ca_machine.specs.Openings.{has_other_flag, is_cross_process, is_kept, is_no_period, kind_opened};
ghost use Rattle.ca_machine.specs.Openings.{period_of, shared_buffer, size_rows, use_rows, words_stored};
ghost use Rattle.service_book.specs.Openings.{AreSizes, HasFormat, IsInRange, arguments, key_by};

use crate::formats::admitted;
use ca_base::limits::{
    MAX_EXCLUSIVE_BUFFER, MAX_EXCLUSIVE_PERIOD, MAX_SHARED_BUFFER_SECONDS, MAX_TIME,
    MIN_EXCLUSIVE_PERIOD, SHARED_PERIOD,
};
use ca_base::values::{
    SHARE_EXCLUSIVE, STREAM_CROSSPROCESS, STREAM_EVENTCALLBACK, STREAM_LOOPBACK, STREAM_NOPERSIST,
};
use ca_base::{ClientNo, ConnNo, EndpointNo, Flow, Guid, Hr, StreamKind, Text};
use ca_machine::Connection;
use device_registry::Endpoint;
use session_manager::SessionKey;
use wave_format::{Format, frames_of};

/// The lowest of the flags that have a meaning, and the first bit above them (AUDCLNT_STREAMFLAGS).
const FIRST_FLAG: u32 = STREAM_CROSSPROCESS;

const FLAGS_END: u32 = 2 * STREAM_NOPERSIST;

/// The arguments of an Initialize, and the connection and the client that it names.
#[derive(Clone, Copy)]
pub struct Opening<'a> {
    pub conn: ConnNo,
    pub client: ClientNo,
    /// AUDCLNT_SHAREMODE.
    pub share: u32,
    /// AUDCLNT_STREAMFLAGS.
    pub flags: u32,
    /// The duration of the buffer and the period, in units of 100 ns.
    pub duration: u64,
    pub period: u64,
    /// The bytes of a WAVEFORMATEX.
    pub format: &'a [u8],
    pub session: Guid,
}

/// The sizes of a stream that is opened.
#[derive(Clone, Copy)]
pub struct Sizes {
    /// The period, in units of 100 ns and in frames.
    pub latency: u64,
    pub period: u32,
    /// The frames of a buffer, and the words of the store.
    pub buffer: u32,
    pub words: u32,
}

/// What an Initialize opens that no row but that of memory refuses.
#[derive(Clone, Copy)]
pub struct OpeningPlan {
    /// The client's endpoint.
    pub endpoint: EndpointNo,
    pub format: Format,
    pub kind: StreamKind,
    /// Whether it has the endpoint for itself, and takes it from shared streams.
    pub exclusive: bool,
    pub takes_over: bool,
    /// Whether the stream's periods set an event.
    pub event: bool,
    pub sizes: Sizes,
    /// The frames that the endpoint's scratch is to have, if it has too few for the period.
    pub scratch: Option<u32>,
    /// What names the session that the stream joins.
    pub key: SessionKey,
}

/// Whether the stream's periods set an event.
fn has_event(flags: u32) -> bool
    ensures { result ≡ has_event flags }
{
    flags / STREAM_EVENTCALLBACK % 2 != 0
}

/// Whether the stream records what its endpoint plays.
fn has_loopback(flags: u32) -> bool
    ensures { result ≡ has_loopback flags }
{
    flags / STREAM_LOOPBACK % 2 != 0
}

/// Whether processes share the session.
fn is_cross_process(flags: u32) -> bool
    ensures { result ≡ is_cross_process flags }
{
    flags / STREAM_CROSSPROCESS % 2 != 0
}

/// Whether the level of a session that is made is kept.
fn is_kept(flags: u32) -> bool
    ensures { result ≡ is_kept flags }
{
    flags / STREAM_NOPERSIST % 2 == 0
}

/// Whether other flags are set.
fn has_other_flag(flags: u32) -> bool
    ensures { result ≡ has_other_flag flags }
{
    flags % FIRST_FLAG != 0 || flags / FLAGS_END != 0
}

/// Whether no exclusive stream has a period of so many units of 100 ns; 0 asks for that of shared streams.
fn is_no_period(period: u64) -> bool
    ensures { result ≡ is_no_period period }
{
    period > MAX_EXCLUSIVE_PERIOD || period < MIN_EXCLUSIVE_PERIOD && period != 0
}

/// The frames of a shared stream's buffer, for a duration in units of 100 ns.
fn shared_buffer(rate: u32, duration: u64) -> u32
    requires { is_listed rate ≡ true }
    ensures frames { result ≡ shared_buffer rate duration }
    ensures most { 2 * result ≤ MAX_STORE_WORDS }
{
    let least = 2 * frames_of(rate, SHARED_PERIOD);
    let most = MAX_SHARED_BUFFER_SECONDS as u128 * rate as u128;
    least.max(frames_of(rate, duration).min(most)) as u32
}

/// The words of the store of a stream of this kind, for so many frames in periods of that many.
fn words_stored(kind: StreamKind, frames: u32, period: u32) -> u32
    requires some { 1 ≤ period }
    requires whole { period ≤ frames }
    requires most { 2 * frames ≤ MAX_STORE_WORDS }
    ensures words { result ≡ words_stored kind frames period }
    ensures some { 1 ≤ result }
    ensures most { result ≤ MAX_STORE_WORDS }
{
    match kind {
        StreamKind::Render => frames,
        StreamKind::Capture | StreamKind::Loopback => frames / period * (period + 1),
    }
}

impl<'a> Opening<'a> {
    /// Whether it asks for exclusive use.
    pub fn is_exclusive(&self) -> bool
        ensures { result ≡ is_exclusive self.now.share }
    {
        self.share == SHARE_EXCLUSIVE
    }

    /// Whether the share mode, the flags and the times are ones that there are, and may be asked of this endpoint.
    fn check_use(&self, endpoint: &Endpoint) -> Result<(), Hr>
        ensures { first (use_rows (Some endpoint.now) (arguments self.now)) ≡ result_err result }
    {
        if self.share > SHARE_EXCLUSIVE
            || has_other_flag(self.flags)
            || self.duration > MAX_TIME
            || self.period > MAX_TIME
        {
            return Err(Hr::E_INVALIDARG);
        }
        if has_loopback(self.flags) && endpoint.flow == Flow::Capture {
            return Err(Hr::WRONG_ENDPOINT_TYPE);
        }
        if !self.is_exclusive() {
            return Ok(());
        }
        if has_loopback(self.flags) || is_cross_process(self.flags) {
            return Err(Hr::E_INVALIDARG);
        }
        if !endpoint.allow {
            return Err(Hr::EXCLUSIVE_MODE_NOT_ALLOWED);
        }
        Ok(())
    }

    /// Whether an exclusive stream may have the period and the buffer that it asks for.
    fn check_sizes(&self) -> Result<(), Hr>
        ensures says { first (size_rows (arguments self.now)) ≡ result_err result }
        ensures range { IfOk result (λ done. IsInRange self.now) }
    {
        if !self.is_exclusive() {
            return Ok(());
        }
        if is_no_period(self.period) {
            return Err(Hr::INVALID_DEVICE_PERIOD);
        }
        if has_event(self.flags) && self.duration != self.period {
            return Err(Hr::BUFDURATION_PERIOD_NOT_EQUAL);
        }
        if self.duration > MAX_EXCLUSIVE_BUFFER {
            return Err(Hr::BUFFER_SIZE_ERROR);
        }
        Ok(())
    }

    /// The format, which the endpoint's admits.
    fn format_for(&self, endpoint: &Endpoint) -> Result<Format, Hr>
        ensures says { first (format_rows (Some endpoint.now) (arguments self.now)) ≡ result_err result }
        ensures format { IfOk result (HasFormat endpoint.now.format self.now) }
    {
        match admitted(self.share, &endpoint.format, self.format)? {
            Some(format) => Ok(format),
            None => Err(Hr::UNSUPPORTED_FORMAT),
        }
    }

    /// Whether what it asks for may be asked of this endpoint, and in which format.
    pub fn check(&self, endpoint: &Endpoint) -> Result<Format, Hr>
        ensures says { first (argument_rows (Some endpoint.now) (arguments self.now)) ≡ result_err result }
        ensures format { IfOk result (HasFormat endpoint.now.format self.now) }
        ensures range { IfOk result (λ format. IsInRange self.now) }
    {
        self.check_use(endpoint)?;
        let format = self.format_for(endpoint)?;
        self.check_sizes()?;
        Ok(format)
    }

    /// The period of its stream, in units of 100 ns.
    fn latency(&self) -> u64
        ensures { result ≡ period_of (arguments self.now) }
    {
        if self.is_exclusive() && self.period != 0 {
            self.period
        } else {
            SHARED_PERIOD
        }
    }

    /// The frames of its stream's buffer, for those of its period.
    fn buffer(&self, rate: u32, period: u32) -> u32
        requires rate { rate ≡ (spelled self.now.format.now).rate }
        requires listed { is_listed rate ≡ true }
        requires period { period ≡ frames_of_time rate (period_of (arguments self.now)) }
        requires range { IsInRange self.now }
        ensures frames { result ≡ buffer_of (arguments self.now) }
        ensures whole { period ≤ result }
        ensures most { 2 * (buffers_of (arguments self.now) * result) ≤ MAX_STORE_WORDS }
    {
        if self.is_exclusive() {
            return (frames_of(rate, self.duration) as u32).max(period);
        }
        shared_buffer(rate, self.duration)
    }

    /// How many buffers its store holds.
    fn buffers(&self) -> u32
        ensures { result ≡ buffers_of (arguments self.now) }
    {
        if self.is_exclusive() && has_event(self.flags) {
            2
        } else {
            1
        }
    }

    /// The sizes of its stream, which is of this kind and rate.
    pub fn sizes(&self, kind: StreamKind, rate: u32) -> Sizes
        requires rate { rate ≡ (spelled self.now.format.now).rate }
        requires listed { is_listed rate ≡ true }
        requires range { IsInRange self.now }
        ensures { AreSizes self.now kind result }
    {
        let latency = self.latency();
        let period = frames_of(rate, latency) as u32;
        let buffer = self.buffer(rate, period);
        Sizes {
            latency,
            period,
            buffer,
            words: words_stored(kind, self.buffers() * buffer, period),
        }
    }

    /// Whether the periods of its stream set an event.
    pub fn is_event_driven(&self) -> bool
        ensures { result ≡ has_event self.now.flags }
    {
        has_event(self.flags)
    }

    /// The kind of stream that is opened on an endpoint of this flow.
    pub fn kind_on(&self, flow: Flow) -> StreamKind
        ensures { result ≡ kind_opened flow self.now.flags }
    {
        match flow {
            Flow::Capture => StreamKind::Capture,
            Flow::Render => {
                if has_loopback(self.flags) {
                    StreamKind::Loopback
                } else {
                    StreamKind::Render
                }
            }
        }
    }

    /// What names the session that the stream joins, over the connection of the call and on the client's endpoint.
    pub fn session_key(&self, connection: &Connection, endpoint: EndpointNo) -> SessionKey
        ensures { result ≡ key_by self.now connection.now endpoint }
    {
        let guid = self.session;
        if is_cross_process(self.flags) {
            let name = Text::new(b"*");
            return SessionKey {
                endpoint,
                process: 0,
                guid,
                name,
            };
        }
        SessionKey {
            endpoint,
            process: connection.process,
            guid,
            name: connection.name,
        }
    }

    /// Whether the level of a session that is made is kept.
    pub fn is_kept(&self) -> bool
        ensures { result ≡ is_kept self.now.flags }
    {
        is_kept(self.flags)
    }
}
