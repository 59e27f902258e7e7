//! What a check point tells of itself.

ghost use Rattle.std.specs.Prelude.{◌≡◌};
ghost use Rattle.slack_report.specs.Points.{data_net, data_number, is_hold, point_name};

use xt_model::{CheckPoint, NetId};

/// Where the data of a check point has to be in time: at the sink of this number of a net.
#[derive(Clone, Copy, Debug, PartialEq, Eq)]
pub struct DataSink {
    pub net: NetId,
    pub sink: u32,
}

/// The name of a check point.
pub fn point_name(point: &CheckPoint) -> &[u8]
    ensures { result.now ≡ point_name point.now }
{
    match point {
        CheckPoint::Flop { name, .. } => name.bytes(),
        CheckPoint::Port { name, .. } => name.bytes(),
    }
}

/// Whether a check point tests hold, and not setup.
pub fn is_hold(point: &CheckPoint) -> bool
    ensures { result ≡ is_hold point.now }
{
    match point {
        CheckPoint::Flop { hold, .. } => *hold,
        CheckPoint::Port { hold, .. } => *hold,
    }
}

/// Where the data of a check point has to be in time.
pub fn data_sink(point: &CheckPoint) -> DataSink
    ensures net { result.net ≡ data_net point.now }
    ensures sink { result.sink ≡ data_number point.now }
{
    match point {
        CheckPoint::Flop {
            datum,
            datum_sink,
            ..
        } => DataSink {
            net: *datum,
            sink: *datum_sink,
        },
        CheckPoint::Port { net, sink, .. } => DataSink {
            net: *net,
            sink: *sink,
        },
    }
}
