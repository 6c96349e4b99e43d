// The tables of feeds and of times, and the columns of query files.

/// The agency, in UTC.
pub const AGENCY: (&str, &[u8]) = (
    "a/agency.txt",
    b"agency_name,agency_url,agency_timezone\nDale Bus,http://localhost/,UTC\n",
);

/// Stops that can be boarded, and K, a station.
pub const STOPS: (&str, &[u8]) = (
    "a/stops.txt",
    b"stop_id,stop_lat,stop_lon,location_type\nM,50,5.02,\nN,50,5.03,\nO,50.5,5.5,\nQ,50.5,5.6,\nK,50,5,1\n",
);

/// The one route.
pub const ROUTES: (&str, &[u8]) = ("a/routes.txt", b"route_id\nR\n");

/// The trip F1 of the service W.
pub const ONE_TRIP: (&str, &[u8]) = ("a/trips.txt", b"route_id,service_id,trip_id\nR,W,F1\n");

/// The weekdays of 2025.
pub const CALENDAR: (&str, &[u8]) = (
    "a/calendar.txt",
    b"service_id,monday,tuesday,wednesday,thursday,friday,saturday,sunday,start_date,end_date\nW,1,1,1,1,1,0,0,20250101,20251231\n",
);

/// The group of M, N and the station K.
pub const GROUPS: (&str, &[u8]) = ("a/location_groups.txt", b"location_group_id\nG\n");

/// M, N and K in the group G.
pub const MEMBERS: (&str, &[u8]) = (
    "a/location_group_stops.txt",
    b"location_group_id,stop_id\nG,M\nG,N\nG,K\n",
);

/// One books by 17:00:00 of the day before.
pub const DAY_AHEAD: (&str, &[u8]) = (
    "a/booking_rules.txt",
    b"booking_rule_id,booking_type,prior_notice_last_day,prior_notice_last_time\nB,2,1,17:00:00\n",
);

/// F1 starts every ten minutes, first at 08:05:00 and last at 08:25:00.
pub const HEADWAYS: (&str, &[u8]) = (
    "a/frequencies.txt",
    b"trip_id,start_time,end_time,headway_secs\nF1,08:05:00,08:30:00,600\n",
);

/// The zone Z, in which M, N and K lie.
pub const ZONE: (&str, &[u8]) = (
    "a/locations.geojson",
    b"{\"type\":\"FeatureCollection\",\"features\":[{\"type\":\"Feature\",\"id\":\"Z\",\"properties\":{},\"geometry\":{\"type\":\"Polygon\",\"coordinates\":[[[4.99,49.99],[5.05,49.99],[5.05,50.01],[4.99,50.01],[4.99,49.99]]]}}]}\n",
);

/// F1 picks up in Z from 08:00:00 to 10:00:00, and is left there by then.
pub const BY_TEN: (&str, &[u8]) = (
    "a/stop_times.txt",
    b"trip_id,stop_sequence,location_id,start_pickup_drop_off_window,end_pickup_drop_off_window,pickup_type,drop_off_type,pickup_booking_rule_id,drop_off_booking_rule_id\n\
      F1,1,Z,08:00:00,10:00:00,2,1,B,\nF1,2,Z,08:00:00,10:00:00,1,2,,B\n",
);

/// The same, but it is left by 08:10:00.
pub const BY_TEN_PAST_EIGHT: (&str, &[u8]) = (
    "a/stop_times.txt",
    b"trip_id,stop_sequence,location_id,start_pickup_drop_off_window,end_pickup_drop_off_window,pickup_type,drop_off_type,pickup_booking_rule_id,drop_off_booking_rule_id\n\
      F1,1,Z,08:00:00,10:00:00,2,1,B,\nF1,2,Z,08:00:00,08:10:00,1,2,,B\n",
);

/// The zone of the times.
pub const UTC: (&str, &[u8]) = ("t/zone.txt", b"UTC0");

/// The points P and D, which lie in Z.
pub const POINTS: (&str, &[u8]) = (
    "t/points.txt",
    b"point_id,point_lat,point_lon\nP,50,5\nD,50,5.04\n",
);

/// P lies in Z.
pub const INSIDE: &[u8] = b"point_id,point_lat,point_lon\nP,50.0,5.0\n";

/// P lies outside of Z.
pub const OUTSIDE: &[u8] = b"point_id,point_lat,point_lon\nP,50.0,6.0\n";

/// From M to N it takes ten minutes.
pub const DIRECT: (&str, &[u8]) = ("t/direct.txt", b"from_id,to_id,seconds\nM,N,600\n");

/// From P to M it takes ten minutes.
pub const TEN_MINUTES: &[u8] = b"from_id,to_id,seconds\nP,M,600\n";

/// The columns of a query file.
pub const QUERIES: &str = "origin,destination,query_id,depart,now,transfers,horizon,walking\n";
