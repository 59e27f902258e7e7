ghost use Rattle.std.specs.Prelude.{◌≡◌, ◌<◌, Some, length};
ghost use Rattle.std.specs.List.{slice_get};
ghost use Rattle.xt_model.specs.Sound.{IsSoundCheck};

use slack_report::Slack;
use xt_model::{CheckPoint, Design};

/// The check point that a slack is of.
pub fn point_of<'a>(design: &'a Design, slack: &Slack) -> &'a CheckPoint
    requires { slack.now.point < length design.now.checks }
    ensures there { slice_get design.now.checks slack.now.point ≡ Some result.now }
    ensures sound { IsSoundCheck design.now result.now }
{
    &design.checks()[slack.point as usize]
}
