//! Trips through the places of small towns.

use crate::cases::{assert_ends, assert_refused, case_of};
use crate::towns::{Asked, BLOCK, ask};
use reply_core::ReplyFault;

// The whole text of each answer.
const TRIPS: &str =
    "block|/trip/v1/car/0,0;0.001,0.001;0.001,0?overview=false|{\"code\":\"Ok\",\"data_version\":\"7\",\"trips\":[{\"distance\":444.4,\"duration\":39.6,\"weight\":39.6,\"weight_name\":\"duration\",\"legs\":[{\"distance\":111.1,\"duration\":9.9,\
\"weight\":9.9,\"summary\":\"\",\"steps\":[]},{\"distance\":111.1,\"duration\":9.9,\"weight\":9.9,\"summary\":\"\",\"steps\":[]},{\"distance\":222.2,\"duration\":19.8,\"weight\":19.8,\"summary\":\"\",\"steps\":[]}]}],\
\"waypoints\":[{\"waypoint_index\":0,\"trips_index\":0,\"distance\":0.0,\"name\":\"\",\"location\":[0.000000,0.000000]},{\"waypoint_index\":2,\"trips_index\":0,\"distance\":0.0,\"name\":\"\",\"location\":[0.001000,0.001000]},\
{\"waypoint_index\":1,\"trips_index\":0,\"distance\":0.0,\"name\":\"\",\"location\":[0.001000,0.000000]}]}
block|/trip/v1/car/0,0;0.001,0.001;0.001,0?overview=false&roundtrip=false&source=first&destination=last|{\"code\":\"Ok\",\"data_version\":\"7\",\"trips\":[{\"distance\":555.5,\"duration\":49.5,\"weight\":49.5,\"weight_name\":\"duration\",\
\"legs\":[{\"distance\":222.2,\"duration\":19.8,\"weight\":19.8,\"summary\":\"\",\"steps\":[]},{\"distance\":333.3,\"duration\":29.7,\"weight\":29.7,\"summary\":\"\",\"steps\":[]}]}],\"waypoints\":[{\"waypoint_index\":0,\"trips_index\":0,\
\"distance\":0.0,\"name\":\"\",\"location\":[0.000000,0.000000]},{\"waypoint_index\":1,\"trips_index\":0,\"distance\":0.0,\"name\":\"\",\"location\":[0.001000,0.001000]},{\"waypoint_index\":2,\"trips_index\":0,\"distance\":0.0,\
\"name\":\"\",\"location\":[0.001000,0.000000]}]}
block|/trip/v1/car/0,0;0.001,0.001;0.001,0?overview=false&source=first&destination=last|{\"code\":\"Ok\",\"data_version\":\"7\",\"trips\":[{\"distance\":888.8,\"duration\":79.2,\"weight\":79.2,\"weight_name\":\"duration\",\
\"legs\":[{\"distance\":222.2,\"duration\":19.8,\"weight\":19.8,\"summary\":\"\",\"steps\":[]},{\"distance\":333.3,\"duration\":29.7,\"weight\":29.7,\"summary\":\"\",\"steps\":[]},{\"distance\":333.3,\"duration\":29.7,\"weight\":29.7,\
\"summary\":\"\",\"steps\":[]}]}],\"waypoints\":[{\"waypoint_index\":0,\"trips_index\":0,\"distance\":0.0,\"name\":\"\",\"location\":[0.000000,0.000000]},{\"waypoint_index\":1,\"trips_index\":0,\"distance\":0.0,\"name\":\"\",\
\"location\":[0.001000,0.001000]},{\"waypoint_index\":2,\"trips_index\":0,\"distance\":0.0,\"name\":\"\",\"location\":[0.001000,0.000000]}]}
block|/trip/v1/car/0,0;0.001,0.001;0.001,0?overview=false&destination=last|{\"code\":\"Ok\",\"data_version\":\"7\",\"trips\":[{\"distance\":444.4,\"duration\":39.6,\"weight\":39.6,\"weight_name\":\"duration\",\"legs\":[{\"distance\":222.2,\
\"duration\":19.8,\"weight\":19.8,\"summary\":\"\",\"steps\":[]},{\"distance\":111.1,\"duration\":9.9,\"weight\":9.9,\"summary\":\"\",\"steps\":[]},{\"distance\":111.1,\"duration\":9.9,\"weight\":9.9,\"summary\":\"\",\"steps\":[]}]}],\
\"waypoints\":[{\"waypoint_index\":1,\"trips_index\":0,\"distance\":0.0,\"name\":\"\",\"location\":[0.000000,0.000000]},{\"waypoint_index\":0,\"trips_index\":0,\"distance\":0.0,\"name\":\"\",\"location\":[0.001000,0.001000]},\
{\"waypoint_index\":2,\"trips_index\":0,\"distance\":0.0,\"name\":\"\",\"location\":[0.001000,0.000000]}]}
block|/trip/v1/car/0,0;0.001,0.001;0.001,0?overview=false&roundtrip=false&skip_waypoints=true|{\"code\":\"Ok\",\"data_version\":\"7\",\"trips\":[{\"distance\":222.2,\"duration\":19.8,\"weight\":19.8,\"weight_name\":\"duration\",\
\"legs\":[{\"distance\":111.1,\"duration\":9.9,\"weight\":9.9,\"summary\":\"\",\"steps\":[]},{\"distance\":111.1,\"duration\":9.9,\"weight\":9.9,\"summary\":\"\",\"steps\":[]}]}]}
block|/trip/v1/car/0,0;0.001,0;0,0?overview=false|{\"code\":\"Ok\",\"data_version\":\"7\",\"trips\":[{\"distance\":444.4,\"duration\":39.6,\"weight\":39.6,\"weight_name\":\"duration\",\"legs\":[{\"distance\":111.1,\"duration\":9.9,\
\"weight\":9.9,\"summary\":\"\",\"steps\":[]},{\"distance\":333.3,\"duration\":29.7,\"weight\":29.7,\"summary\":\"\",\"steps\":[]},{\"distance\":0.0,\"duration\":0.0,\"weight\":0.0,\"summary\":\"\",\"steps\":[]}]}],\
\"waypoints\":[{\"waypoint_index\":0,\"trips_index\":0,\"distance\":0.0,\"name\":\"\",\"location\":[0.000000,0.000000]},{\"waypoint_index\":1,\"trips_index\":0,\"distance\":0.0,\"name\":\"\",\"location\":[0.001000,0.000000]},\
{\"waypoint_index\":2,\"trips_index\":0,\"distance\":0.0,\"name\":\"\",\"location\":[0.000000,0.000000]}]}
lane|/trip/v1/car/0.00025,0;0.00075,0?overview=false&roundtrip=false|{\"code\":\"Ok\",\"data_version\":\"7\",\"trips\":[{\"distance\":55.6,\"duration\":5.0,\"weight\":5.0,\"weight_name\":\"duration\",\"legs\":[{\"distance\":55.6,\
\"duration\":5.0,\"weight\":5.0,\"summary\":\"\",\"steps\":[]}]}],\"waypoints\":[{\"waypoint_index\":0,\"trips_index\":0,\"distance\":0.0,\"name\":\"\",\"location\":[0.000250,0.000000]},{\"waypoint_index\":1,\"trips_index\":0,\
\"distance\":0.0,\"name\":\"\",\"location\":[0.000750,0.000000]}]}
lane|/trip/v1/car/0.00075,0;0.00025,0?overview=false&roundtrip=false|{\"code\":\"Ok\",\"data_version\":\"7\",\"trips\":[{\"distance\":55.6,\"duration\":5.0,\"weight\":5.0,\"weight_name\":\"duration\",\"legs\":[{\"distance\":55.6,\
\"duration\":5.0,\"weight\":5.0,\"summary\":\"\",\"steps\":[]}]}],\"waypoints\":[{\"waypoint_index\":1,\"trips_index\":0,\"distance\":0.0,\"name\":\"\",\"location\":[0.000750,0.000000]},{\"waypoint_index\":0,\"trips_index\":0,\
\"distance\":0.0,\"name\":\"\",\"location\":[0.000250,0.000000]}]}";

#[test]
fn the_best_trip_by_each_rule(rt: HostRuntime) -> Result<(), ReplyFault> {
    for row in TRIPS.split('\n') {
        assert_ends(&rt, rt.alloc(), case_of(&rt, row))?;
    }
    Ok(())
}

// The whole text of each answer. A lane that is driven one way leads from the first coordinate to the second alone.
const NO_TRIPS: &str =
    "lane|/trip/v1/car/0.00025,0;0.00075,0?overview=false|{\"code\":\"NoTrips\",\"data_version\":\"7\",\"message\":\"trip\"}
lane|/trip/v1/car/0.00075,0;0.00025,0?overview=false&roundtrip=false&source=first|{\"code\":\"NoTrips\",\"data_version\":\"7\",\"message\":\"trip\"}
lane|/trip/v1/car/0.00075,0;0.00025,0?overview=false&roundtrip=false&destination=last|{\"code\":\"NoTrips\",\"data_version\":\"7\",\"message\":\"trip\"}
lane|/trip/v1/car/0.00025,0;0.00075,0.001?overview=false&radiuses=;1|{\"code\":\"NoSegment\",\"data_version\":\"7\",\"message\":\"coordinate 1\"}
desert|/trip/v1/car/0,0;0,0?overview=false|{\"code\":\"NoSegment\",\"data_version\":\"7\",\"message\":\"coordinate 0\"}
lane|/trip/v1/car/0.00025,0;0.00075,0?overview=false&since=8|{\"code\":\"AheadOfData\",\"data_version\":\"7\",\"message\":\"since 8\"}
desert|/trip/v1/car/0,0;0,0?overview=false&since=8|{\"code\":\"AheadOfData\",\"data_version\":\"7\",\"message\":\"since 8\"}
lane|/trip/v1/car/0.00025,0?overview=false|{\"code\":\"InvalidQuery\",\"message\":\"1 coordinates\"}
lane|/trip/v1/car/0,0;0,0;0,0;0,0;0,0;0,0;0,0;0,0;0,0;0,0?overview=false|{\"code\":\"TooBig\",\"message\":\"10 coordinates, at most 9\"}
lane|/trip/v1/car/0,0;0,0?source=last|{\"code\":\"InvalidOptions\",\"message\":\"option source\"}";

#[test]
fn no_trip_is_told_where_nothing_else_is_lacking(rt: HostRuntime) -> Result<(), ReplyFault> {
    for row in NO_TRIPS.split('\n') {
        assert_refused(&rt, rt.alloc(), case_of(&rt, row))?;
    }
    Ok(())
}

#[test]
fn the_walks_are_in_the_order_of_the_trip(rt: HostRuntime) -> Result<(), ReplyFault> {
    let target = Asked::Target("/trip/v1/car/0,0;0.001,0.001;0.001,0?overview=false");
    let answer = ask(&rt, rt.alloc(), BLOCK, target)?;
    assert_eq!(rt; answer.status, 200);
    let mut told = String::new(rt.alloc());
    for walk in answer.walks.as_slice() {
        told.push_str(format!(in rt.alloc(); "{:?} ", walk.as_slice())?.as_str())?;
    }
    assert_eq!(rt; told.as_str(), "[0] [0, 2] [2, 4, 6, 0] ");
    Ok(())
}
